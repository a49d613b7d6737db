// What an entry meets at its place.
ghost use Rattle.std.specs.Prelude.{◌≡◌};
ghost use Rattle.receiver.specs.Model.{meet_half, meet_of, only};

use receiver::{Met, Record, Slot, channels, meeting};

fn only_number(number: u8, held: Slot) -> Met
    ensures { result ≡ only number held }
{
    Met {
        number,
        told: meeting::no_record(),
        held,
    }
}

// A half that comes where a half is held: the same one, or the opposite one, with which it joins if their references agree.
fn meet_half(half: u8, held: Slot, e: Record, joined: Record) -> Met
    requires { held.half ≡ 0 → ⊥ }
    ensures { result ≡ meet_half half held e joined (only 4 held) }
{
    if held.half == half {
        return only_number(5, held);
    }
    if !meeting::agrees(held.record, e) {
        return only_number(7, held);
    }
    Met {
        number: 3,
        told: joined,
        held: meeting::empty_slot(),
    }
}

// What an entry on channel ch meets at its place, at tick now.
pub fn meet(ch: usize, now: u32, held: Slot, e: Record) -> Met
    ensures { result ≡ meet_of ch now held e }
{
    let c = meeting::class(ch, e);
    if c < 3 {
        return Met {
            number: c,
            told: e,
            held,
        };
    }
    if 4 < c {
        return only_number(c, held);
    }
    if held.half != 0 {
        if c == 3 {
            return meet_half(1, held, e, meeting::join(e, held.record));
        }
        return meet_half(2, held, e, meeting::join(held.record, e));
    }
    if c == 4 && !channels::leads(ch) {
        return only_number(8, held);
    }
    only_number(
        4,
        Slot {
            half: c - 2,
            since: now,
            record: e,
        },
    )
}
