// A record as numbers, in the order of the header's parts, and behind the numbers that lead it.
ghost use Rattle.std.specs.Prelude.{◌≡◌, [], ◌∷◌, ◌++◌};
ghost use Rattle.layout.specs.Parts.{record_numbers};

use arrays::fill;
use receiver::Record;

// How many numbers a record has: four wide ones, twenty flags, six small ones.
const RECORD: usize = 30;

// A told entry: its key, its number, its record, whether it can be followed and with which count.
pub(crate) const TOLD: usize = 2 + RECORD + 2;

// A half held: its key, its channel, which half, for how long it stays, and its record.
pub(crate) const HELD: usize = 4 + RECORD;

fn record_numbers(r: Record) -> [u64; RECORD]
    ensures { result ≡ record_numbers r }
{
    [
        r.call.reference as u64,
        r.call.description.channel as u64,
        r.call.description.frequencies,
        r.rand,
        r.full as u64,
        r.call.vgcs as u64,
        r.call.acknowledged as u64,
        r.call.hasDescription as u64,
        r.call.description.hopping as u64,
        r.call.description.shortlist as u64,
        r.hasSegment as u64,
        r.segment as u64,
        r.hasRandom as u64,
        r.emergency as u64,
        r.common.hasCount as u64,
        r.common.b22 as u64,
        r.common.hasUplink as u64,
        r.common.uplink as u64,
        r.common.hasAmr as u64,
        r.common.hasFullrate as u64,
        r.common.hasHalfrate as u64,
        r.common.hasSms as u64,
        r.common.confidential as u64,
        r.common.private as u64,
        r.call.priority as u64,
        r.call.cipher as u64,
        r.call.description.length as u64,
        r.common.cellcount as u64,
        r.common.fullrate as u64,
        r.common.halfrate as u64,
    ]
}

// A told entry.
pub(crate) fn told_numbers(key: u64, number: u64, r: Record, follow: u64, kept: u64) -> [u64; TOLD]
    ensures { result ≡ key ∷ number ∷ record_numbers r ++ (follow ∷ kept ∷ []) }
{
    let mut all = [0u64; TOLD];
    let head = [key, number];
    fill::run(&head, &mut all, 0);
    let rest = record_numbers(r);
    fill::run(&rest, &mut all, 2);
    let tail = [follow, kept];
    fill::run(&tail, &mut all, 2 + RECORD);
    all
}

// A half held.
pub(crate) fn held_numbers(key: u64, channel: u64, half: u64, left: u64, r: Record) -> [u64; HELD]
    ensures { result ≡ key ∷ channel ∷ half ∷ left ∷ record_numbers r }
{
    let mut all = [0u64; HELD];
    let head = [key, channel, half, left];
    fill::run(&head, &mut all, 0);
    let rest = record_numbers(r);
    fill::run(&rest, &mut all, 4);
    all
}
