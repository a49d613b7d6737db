// What a host sees of a lent state in one call: an entry of the answer, who is paged, the halves held, when the next one runs out, whether a setup left it.
ghost use Rattle.std.specs.Prelude.{◌≡◌, [], length, get_or};
ghost use Rattle.bits.specs.Field.{pick};
ghost use Rattle.csn1.specs.Told.{as_bit, padded};
ghost use Rattle.receiver.specs.Step.{no_told};
ghost use Rattle.layout.specs.Layout.{is_state, is_marked, decode_of, last_of};
ghost use Rattle.layout.specs.Parts.{told_numbers, paged_numbers};
ghost use Rattle.views.specs.Held.{held_list, least_left, numbers_no};

// An entry of the answer with its record, into as many places as there are; what is not there is 0.
#[unsafe(no_mangle)]
pub extern "C" fn asternhaken_entry_numbers(state: &[u8], entry: u32, numbers: &mut [u64]) -> u32
    ensures { (result ≡ pick (is_state state.now) 0 13)
        × (numbers.new ≡ padded 0 (length numbers.old) (pick (is_state state.now) (told_numbers (get_or (last_of state.now).entries entry no_told)) [])) }
{
    host_views::state::asternhaken_entry_numbers(state, entry, numbers)
}

// Who is paged, into as many places as there are; what is not there is 0.
#[unsafe(no_mangle)]
pub extern "C" fn asternhaken_paged_numbers(state: &[u8], numbers: &mut [u64]) -> u32
    ensures { (result ≡ pick (is_state state.now) 0 13)
        × (numbers.new ≡ padded 0 (length numbers.old) (pick (is_state state.now) (paged_numbers (last_of state.now).paged) [])) }
{
    host_views::state::asternhaken_paged_numbers(state, numbers)
}

// How many halves are held.
#[unsafe(no_mangle)]
pub extern "C" fn asternhaken_held_count(state: &[u8], count: &mut u64) -> u32
    ensures { (result ≡ pick (is_state state.now) 0 13)
        × (count.new ≡ pick (is_state state.now) (length (held_list (decode_of state.now))) 0) }
{
    host_views::state::asternhaken_held_count(state, count)
}

// One of them, counted from 0 in the order of their places, into as many places as there are; what is not there is 0.
#[unsafe(no_mangle)]
pub extern "C" fn asternhaken_held_numbers(state: &[u8], i: u32, numbers: &mut [u64]) -> u32
    ensures { (result ≡ pick (is_state state.now) 0 13)
        × (numbers.new ≡ padded 0 (length numbers.old) (pick (is_state state.now) (numbers_no (decode_of state.now) i) [])) }
{
    host_views::state::asternhaken_held_numbers(state, i, numbers)
}

// In how many milliseconds, by the state's tick, the next of them runs out.
#[unsafe(no_mangle)]
pub extern "C" fn asternhaken_next_expiry(state: &[u8], ms: &mut u64) -> u32
    ensures { (result ≡ pick (is_state state.now) 0 13) × (ms.new ≡ pick (is_state state.now) (least_left (decode_of state.now)) 0) }
{
    host_views::state::asternhaken_next_expiry(state, ms)
}

// Whether the mark of a setup is there: 1, else 0.
#[unsafe(no_mangle)]
pub extern "C" fn asternhaken_is_set_up(state: &[u8]) -> u32
    ensures { result ≡ as_bit (is_marked state.now) }
{
    host_views::state::asternhaken_is_set_up(state)
}
