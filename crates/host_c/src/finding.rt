// Looking up a key among lent keys, by halving, as an event does; and how many looks that takes.
ghost use Rattle.std.specs.Prelude.{◌≡◌, leb, length};
ghost use Rattle.bits.specs.Field.{pick};
ghost use Rattle.receiver.specs.Channels.{key_count};
ghost use Rattle.receiver.specs.Halving.{halving};

// The keys may be in any order; a setup takes them in rising order only. More of them than a setup takes are refused.
#[unsafe(no_mangle)]
pub extern "C" fn asternhaken_find(keys: &[u32], key: u32, place: &mut u64, looks: &mut u64) -> u32
    ensures { (result ≡ pick (leb (length keys.now) key_count) 0 10)
        × ((place.new ≡ pick (leb (length keys.now) key_count) (halving keys.now key).at 0)
        × (looks.new ≡ pick (leb (length keys.now) key_count) (halving keys.now key).looks 0)) }
{
    host::finding::asternhaken_find(keys, key, place, looks)
}
