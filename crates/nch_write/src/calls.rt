// What is counted of the calls of a record.
ghost use Rattle.std.specs.Prelude.{◌≡◌, take};
ghost use Rattle.call.specs.Call.{ciphered};
ghost use Rattle.nch.specs.Octets.{count};
ghost use Rattle.nch.specs.Write.{is_described};

use call::Call;
use nch::places;

#[derive(Drop)]
pub struct Counts {
    pub ciphered: usize,
    pub described: usize,
}

// How many of the first n calls are ciphered, and how many have a description.
pub(crate) fn counted(calls: [Call; places::MOST_CALLS], n: usize) -> Counts
    ensures { (result.ciphered ≡ count ciphered (take n calls)) × (result.described ≡ count is_described (take n calls)) }
{
    let mut coded: usize = 0;
    let mut described: usize = 0;
    let mut i: usize = 0;
    while i < places::MOST_CALLS {
        let c = calls[i];
        if i < n {
            coded += (1 <= c.cipher) as usize;
            described += c.hasDescription as usize;
        }
        i += 1;
    }
    Counts {
        ciphered: coded,
        described,
    }
}
