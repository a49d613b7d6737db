// The C library: a message as the list of its fields, as C calls it. A crate is a library or a static library and not both, so each export calls the function of host_trace of the same name, and states the same.

#![tactic(auto)]

ghost use Rattle.std.specs.Prelude.{◌≡◌, length};
ghost use Rattle.trace.specs.Fields.{listing};
ghost use Rattle.trace.specs.NchKinds.{nch_met};
ghost use Rattle.trace.specs.FacchKinds.{facch_met};

// NT/N Rest Octets.
#[unsafe(no_mangle)]
pub extern "C" fn asternhaken_nch_trace(octets: &[u8], fields: &mut [u64]) -> u32
    ensures { (result ≡ length (nch_met octets.now)) × (fields.new ≡ listing fields.old 0 (nch_met octets.now)) }
{
    host_trace::asternhaken_nch_trace(octets, fields)
}

// NOTIFICATION/FACCH.
#[unsafe(no_mangle)]
pub extern "C" fn asternhaken_facch_trace(octets: &[u8], fields: &mut [u64]) -> u32
    ensures { (result ≡ length (facch_met octets.now)) × (fields.new ≡ listing fields.old 0 (facch_met octets.now)) }
{
    host_trace::asternhaken_facch_trace(octets, fields)
}
