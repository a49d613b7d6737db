// The C library: the uplink, as C calls it. A crate is a library or a static library and not both, so each export calls the function of host_uplink of the same name, and states the same.

#![tactic(auto)]

ghost use Rattle.std.specs.Prelude.{◌≡◌};
ghost use Rattle.uplink.specs.declared.Signal.TheVariants.{Free, Busy, Request, Tick};
ghost use Rattle.uplink_lent.specs.State.{setup_code, setup_octets, code_of, octets_after};

#[unsafe(no_mangle)]
pub extern "C" fn asternhaken_uplink_setup(uplink: &mut [u8], first: u32, t3128: u32) -> u32
    ensures { (result ≡ setup_code uplink.old (record { tick = first; t3128 = t3128 }))
        × (uplink.new ≡ setup_octets uplink.old (record { tick = first; t3128 = t3128 })) }
{
    host_uplink::asternhaken_uplink_setup(uplink, first, t3128)
}

// A message came that says: free.
#[unsafe(no_mangle)]
pub extern "C" fn asternhaken_uplink_free(uplink: &mut [u8], time: u32) -> u32
    ensures { (result ≡ code_of uplink.old (record { tick = time; signal = Free })) × (uplink.new ≡ octets_after uplink.old (record { tick = time; signal = Free })) }
{
    host_uplink::asternhaken_uplink_free(uplink, time)
}

// UPLINK BUSY came.
#[unsafe(no_mangle)]
pub extern "C" fn asternhaken_uplink_busy(uplink: &mut [u8], time: u32) -> u32
    ensures { (result ≡ code_of uplink.old (record { tick = time; signal = Busy })) × (uplink.new ≡ octets_after uplink.old (record { tick = time; signal = Busy })) }
{
    host_uplink::asternhaken_uplink_busy(uplink, time)
}

// The driver wants to talk.
#[unsafe(no_mangle)]
pub extern "C" fn asternhaken_uplink_request(uplink: &mut [u8], time: u32) -> u32
    ensures { (result ≡ code_of uplink.old (record { tick = time; signal = Request })) × (uplink.new ≡ octets_after uplink.old (record { tick = time; signal = Request })) }
{
    host_uplink::asternhaken_uplink_request(uplink, time)
}

// Time passed.
#[unsafe(no_mangle)]
pub extern "C" fn asternhaken_uplink_tick(uplink: &mut [u8], time: u32) -> u32
    ensures { (result ≡ code_of uplink.old (record { tick = time; signal = Tick })) × (uplink.new ≡ octets_after uplink.old (record { tick = time; signal = Tick })) }
{
    host_uplink::asternhaken_uplink_tick(uplink, time)
}
