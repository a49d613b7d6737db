// The channels by number: what tells them apart, and where their halves stand.
ghost use Rattle.std.specs.Prelude.{◌≡◌};
ghost use Rattle.receiver.specs.Channels.{side_of, index_in, by_number_of, asks, leads};

// Stays: numbers for channels: the state's octets are laid out by them, and place_on, side_of and class_of hold for every number, where an enum would take fewer.
pub const CHANNELS: usize = 3;

pub const NCH: usize = 0;

pub const FACCH: usize = 1;

pub const PCH: usize = 2;

// One flag for each channel.
pub fn flag_of(ch: usize, nch: bool, facch: bool, pch: bool) -> bool
    ensures { result ≡ by_number_of ch nch facch pch }
{
    match ch {
        NCH => nch,
        FACCH => facch,
        _ => pch,
    }
}

// One timer for each channel: T3206 runs for the NCH, T3208 for the FACCH, T3210 for the PCH.
pub fn timer_of(ch: usize, t3206: u32, t3208: u32, t3210: u32) -> u32
    ensures { result ≡ by_number_of ch t3206 t3208 t3210 }
{
    match ch {
        NCH => t3206,
        FACCH => t3208,
        _ => t3210,
    }
}

// Whether its halves are told apart by Segment Id too.
pub fn asks(ch: usize) -> bool
    ensures { result ≡ asks ch }
{
    ch == NCH
}

// Whether a second half may come first.
pub fn leads(ch: usize) -> bool
    ensures { result ≡ leads ch }
{
    ch != FACCH
}

// The channel and the subscription of a place.
pub fn side_of(i: usize) -> usize
    ensures { result ≡ side_of i }
{
    i % CHANNELS
}

pub fn index_in(i: usize) -> usize
    ensures { result ≡ index_in i }
{
    i / CHANNELS
}
