// The C library: a message as the list of its fields, as include/asternhaken.h declares it, each function a thin one over trace.
#![tactic(auto)]

ghost use Rattle.std.specs.Prelude.{◌≡◌, length};
ghost use Rattle.trace.specs.Fields.{listing};
ghost use Rattle.trace.specs.NchKinds.{nch_met};
ghost use Rattle.trace.specs.FacchKinds.{facch_met};

// NT/N Rest Octets.
#[unsafe(no_mangle)]
pub extern "C" fn asternhaken_nch_trace(octets: &[u8], fields: &mut [u64]) -> u32
    ensures { (result ≡ length (nch_met octets.now)) × (fields.new ≡ listing fields.old 0 (nch_met octets.now)) }
{
    trace::nch(octets, fields) as u32
}

// NOTIFICATION/FACCH.
#[unsafe(no_mangle)]
pub extern "C" fn asternhaken_facch_trace(octets: &[u8], fields: &mut [u64]) -> u32
    ensures { (result ≡ length (facch_met octets.now)) × (fields.new ≡ listing fields.old 0 (facch_met octets.now)) }
{
    trace::facch(octets, fields) as u32
}
