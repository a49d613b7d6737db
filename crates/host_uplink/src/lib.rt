// The C library: the uplink on a lent state of its own, as include/asternhaken.h declares it, each function a thin one over uplink_lent.
#![tactic(auto)]

ghost use Rattle.std.specs.Prelude.{◌≡◌};
ghost use Rattle.uplink.specs.declared.Signal.TheVariants.{Free, Busy, Request, Tick};
ghost use Rattle.uplink_lent.specs.State.{setup_code, setup_octets, code_of, octets_after};

use uplink::{Setup, Signal};

#[unsafe(no_mangle)]
pub extern "C" fn asternhaken_uplink_setup(uplink: &mut [u8], first: u32, t3128: u32) -> u32
    ensures { (result ≡ setup_code uplink.old (record { tick = first; t3128 = t3128 }))
        × (uplink.new ≡ setup_octets uplink.old (record { tick = first; t3128 = t3128 })) }
{
    uplink_lent::setup(uplink, Setup { tick: first, t3128 })
}

// A message came that says: free.
#[unsafe(no_mangle)]
pub extern "C" fn asternhaken_uplink_free(uplink: &mut [u8], time: u32) -> u32
    ensures { (result ≡ code_of uplink.old (record { tick = time; signal = Free })) × (uplink.new ≡ octets_after uplink.old (record { tick = time; signal = Free })) }
{
    uplink_lent::feed(uplink, time, Signal::Free)
}

// UPLINK BUSY came.
#[unsafe(no_mangle)]
pub extern "C" fn asternhaken_uplink_busy(uplink: &mut [u8], time: u32) -> u32
    ensures { (result ≡ code_of uplink.old (record { tick = time; signal = Busy })) × (uplink.new ≡ octets_after uplink.old (record { tick = time; signal = Busy })) }
{
    uplink_lent::feed(uplink, time, Signal::Busy)
}

// The driver wants to talk.
#[unsafe(no_mangle)]
pub extern "C" fn asternhaken_uplink_request(uplink: &mut [u8], time: u32) -> u32
    ensures { (result ≡ code_of uplink.old (record { tick = time; signal = Request })) × (uplink.new ≡ octets_after uplink.old (record { tick = time; signal = Request })) }
{
    uplink_lent::feed(uplink, time, Signal::Request)
}

// Time passed.
#[unsafe(no_mangle)]
pub extern "C" fn asternhaken_uplink_tick(uplink: &mut [u8], time: u32) -> u32
    ensures { (result ≡ code_of uplink.old (record { tick = time; signal = Tick })) × (uplink.new ≡ octets_after uplink.old (record { tick = time; signal = Tick })) }
{
    uplink_lent::feed(uplink, time, Signal::Tick)
}
