// A number's digits are found, the most significant first.
ghost use Rattle.std.specs.Prelude.{◌≡◌, ◌<◌, ◌≤◌, min, max, length, take};
ghost use Rattle.text.specs.Digits.{hex_digit_ascii};
ghost use Rattle.text.specs.Inner.{last_digits, IsDigitCount, IsPrefixLen};

// Puts a number's decimal digits first, and answers how many there are.
pub(crate) fn find_decimal(n: u64, digits: &mut [u8; 20]) -> usize
    ensures { IsPrefixLen result digits.new × (IsDigitCount 10 1 n result × (take result digits.new ≡ last_digits 10 result n)) }
{
    let k = digit_count(n, 10, 1);
    put_digits(n, 10, &mut digits[..k]);
    k
}

// Puts a number's hexadecimal digits first, at least as many as asked for and at most sixteen, and answers how many there are.
pub(crate) fn find_hex(n: u64, least: usize, digits: &mut [u8; 16]) -> usize
    ensures { IsPrefixLen result digits.new × (IsDigitCount 16 (min (max least 1) 16) n result × (take result digits.new ≡ last_digits 16 result n)) }
{
    let k = digit_count(n, 16, least.max(1).min(16));
    put_digits(n, 16, &mut digits[..k]);
    k
}

// How many digits a number takes in a base, or as many as asked for where that is more.
fn digit_count(n: u64, base: u64, least: usize) -> usize
    requires { (1 < base) × (0 < least) }
    ensures { IsDigitCount base least n result }
{
    if n == 0 {
        least
    } else {
        least.max(n.ilog(base) as usize + 1)
    }
}

// Fills octets with the last digits of a number.
fn put_digits(n: u64, base: u64, digits: &mut [u8])
    requires { (0 < base) × (base ≤ 16) }
    ensures { digits.new ≡ last_digits base (length digits.old) n }
{
    let mut rest = n;
    for i in (0..digits.len()).rev() {
        digits[i] = glyph(rest % base);
        rest /= base;
    }
}

// The character of a digit.
fn glyph(d: u64) -> u8
    requires { d < 16 }
    ensures { result ≡ hex_digit_ascii d }
{
    if d < 10 {
        b'0' + d as u8
    } else {
        b'a' - 10 + d as u8
    }
}
