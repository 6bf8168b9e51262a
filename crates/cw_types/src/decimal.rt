//! Numbers as decimal text: digits alone, with no leading zero.
ghost use Rattle.std.specs.Prelude.{◌≡◌, ℕ, ◌+◌, ◌*◌, ◌-◌, ◌^◌, ◌<◌, ◌≤◌, List, Some, decimal};
ghost use Rattle.std.specs.Option.{SomeIff};
ghost use Rattle.std.specs.Char.{is_ascii_digit};
ghost use Rattle.std.specs.List.{list_all};
ghost use Rattle.cw_types.specs.Decimal.{is_numeral, number_of};

fn all_digits(text: &[u8]) -> bool
    ensures { result ≡ list_all is_ascii_digit text.now }
{
    text.iter().all(|byte| byte.is_ascii_digit())
}

// Whether a text is digits, the first of which is 0 only where it stands alone.
fn is_numeral(text: &[u8]) -> bool
    ensures { result ≡ is_numeral text.now }
{
    if text.len() == 0 {
        return false;
    }
    if text.len() > 1 && text[0] == b'0' {
        return false;
    }
    all_digits(text)
}

// A number with one more digit.
fn with_digit(value: u64, byte: u8) -> Option<u64>
    ensures { SomeIff result (10 * value + (byte - 48) < 2 ^ 64) (10 * value + (byte - 48)) }
{
    let digit = u64::from(byte.saturating_sub(b'0'));
    value.checked_mul(10)?.checked_add(digit)
}

// The number that a text is, if it is one of at most `most`.
fn read_number(text: &[u8], most: u64) -> Option<u64>
    ensures { result ≡ number_of most text.now }
{
    if !is_numeral(text) {
        return None;
    }
    let mut value: u64 = 0;
    for byte in text {
        value = with_digit(value, *byte)?;
    }
    if value <= most { Some(value) } else { None }
}

/// The number below 2^64 that a text is in decimal, with no sign and no leading zero.
pub fn read_u64(text: &[u8]) -> Option<u64>
    ensures { result ≡ number_of (2 ^ 64 - 1) text.now }
{
    read_number(text, u64::MAX)
}

/// The number below 2^32 that a text is in decimal, with no sign and no leading zero.
pub fn read_u32(text: &[u8]) -> Option<u32>
    ensures { result ≡ number_of (2 ^ 32 - 1) text.now }
{
    read_number(text, 4294967295).map(|number| number as u32)
}

/// The law of decimal numbers: what is written as decimal text is read again, and nothing else is read.
pub fn numbers_are_decimals()
    ensures again { (most n : ℕ) → n < 2 ^ 64 → n ≤ most → number_of most (decimal n) ≡ Some n }
    ensures only { (most n : ℕ) (text : List ℕ) → most < 2 ^ 64 → number_of most text ≡ Some n →
        (text ≡ decimal n) × (n ≤ most) }
{}
