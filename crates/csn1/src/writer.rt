// What writers ask of what stands behind a flag.
ghost use Rattle.std.specs.Prelude.{◌≡◌};
ghost use Rattle.bits.specs.Field.{both};
ghost use Rattle.csn1.specs.Write.{flagged_right, behind};

// Both of two tests are passed.
pub fn both_hold(a: bool, b: bool) -> bool
    ensures { result ≡ both a b }
{
    if a {
        return b;
    }
    false
}

// A number behind a flag: below its limit, and 0 where the flag is not set.
pub fn flagged_right(there: bool, v: u64, limit: u64) -> bool
    ensures { result ≡ flagged_right there v limit }
{
    if there {
        return v < limit;
    }
    v == 0
}

// A bit behind a flag: not set where the flag is not.
pub fn bit_right(there: bool, b: bool) -> bool
    ensures { result ≡ behind there b }
{
    if there {
        return true;
    }
    !b
}
