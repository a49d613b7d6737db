// Looking up a key by halving.
ghost use Rattle.std.specs.Prelude.{◌≡◌, take};
ghost use Rattle.receiver.specs.Halving.{halving};
ghost use Rattle.receiver.specs.Model.{index_of};

use crate::Setup;

// Where a key was found, or KEYS where it was not, and how many keys it was compared with.
// Stays: KEYS for none: asternhaken_find writes it, and index_of with the theorems of specs/Promises has the place as a number.
#[derive(Drop)]
pub struct Found {
    pub at: usize,
    pub looks: usize,
}

// A key among keys, in whatever order they are. Where they rise, it is found if it is among them.
pub fn find(keys: &[u32], key: u64) -> Found
    ensures { result ≡ halving keys.now key }
{
    // Stays: a loop over two ends: halving counts each key that is compared, which the library's binary_search does not.
    let mut start: usize = 0;
    let mut end = keys.len();
    let mut looks: usize = 0;
    while start < end {
        let middle = start + (end - start) / 2;
        let here = u64::from(keys[middle]);
        looks += 1;
        if here == key {
            return Found { at: middle, looks };
        }
        if key < here {
            end = middle;
        } else {
            start = middle + 1;
        }
    }
    Found {
        at: Setup::KEYS,
        looks,
    }
}

// The place of a key among the first so many, or KEYS where it is not there.
pub fn index_of(keys: [u32; Setup::KEYS], count: usize, key: u64) -> usize
    ensures { result ≡ index_of (take count keys) key }
{
    find(&keys[..count.min(Setup::KEYS)], key).at
}
