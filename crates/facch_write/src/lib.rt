// The writer of NOTIFICATION/FACCH. The form is put together in words, and its length is known before: the buffer is touched last, and a form that does not fit leaves it as it is.
#![tactic(auto)]

ghost use Rattle.std.specs.Prelude.{◌≡◌, true, ◌≤◌, length};
ghost use Rattle.csn1.specs.Grammar.{format};
ghost use Rattle.pen.specs.Words.{whole, Adds};
ghost use Rattle.facch.specs.Message.{one_to_nine, paging};
ghost use Rattle.facch.specs.Back.{paging_value};
ghost use Rattle.facch_write.specs.Write.{page_in_range, record_refusal, answer_of, after_write};
ghost use Rattle.facch_write.specs.Inner.{head_bits};

use facch::{Notification, Page};
use pen::Words;

pub mod checks;
mod strips;

// What writing gives: the number of bits used, padding left out, or why not.
#[derive(Drop)]
pub struct Written {
    pub refusal: u8,
    pub used: usize,
}

// The place behind the first octet and what is notified.
fn head_size(m: Notification) -> usize
    requires { record_refusal m ≡ 0 }
    ensures { (result ≡ length (head_bits m 0)) × (result ≤ 144) }
{
    if !m.paging {
        let c = m.call;
        return 9 + call::writer::size(c);
    }
    let octets = 20 + 8 * m.page.identityLength as usize;
    if m.page.hasPriority {
        return octets + 3;
    }
    octets
}

// <Paging Information>
fn put_page(w: Words, p: Page) -> Words
    requires { (page_in_range p ≡ true) × (one_to_nine p.identityLength ≡ true) }
    ensures { Adds (whole w) (whole result) ((format paging).bits 0 0 (paging_value p)) }
{
    let length_and_first = p.identityLength as u64 * 256 + p.identityFirst as u64;
    let first = pen::put(w, 16, length_and_first);
    let n = p.identityLength as usize;
    let rest = pen::put(first, 8 * (n - 1), p.identityRest);
    let s = strips::channel(p);
    pen::put(rest, s.width, s.value)
}

// The first octet, which is zero, the bit that says which of the two follows, and the call or the page.
fn put_head(m: Notification) -> Words
    requires { record_refusal m ≡ 0 }
    ensures { Adds 0 (whole result) (head_bits m 0) }
{
    let w = pen::put(pen::none(), 9, m.paging as u64);
    if m.paging {
        let p = m.page;
        return put_page(w, p);
    }
    let c = m.call;
    pen::calls::put(w, c)
}

// Writes the record into 2 to 23 octets and says how many bits it took, or says the number of the refusal and leaves the buffer as it is.
pub fn write(m: Notification, buffer: &mut [u8]) -> Written
    ensures { (result ≡ answer_of m (length buffer.old)) × (buffer.new ≡ after_write m buffer.old) }
{
    let refusal = checks::refusal(m);
    if refusal != 0 {
        return Written { refusal, used: 0 };
    }
    let n = buffer.len();
    if n < 2 {
        return Written {
            refusal: 11,
            used: 0,
        };
    }
    if 23 < n {
        return Written {
            refusal: 11,
            used: 0,
        };
    }
    let a = head_size(m);
    let release6 = m.release6;
    let six = strips::release6(release6, a, n * 8);
    let b = a + six.width;
    let release7 = m.release7;
    let seven = strips::release7(release7, b, n * 8);
    let used = b + seven.width;
    if n * 8 < used {
        return Written {
            refusal: 11,
            used: 0,
        };
    }
    let head = put_head(m);
    let later = pen::put(head, six.width, six.value);
    let all = pen::put(later, seven.width, seven.value);
    pen::octets::store(all, used, &mut *buffer);
    Written { refusal: 0, used }
}
