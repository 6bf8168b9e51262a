//! What the fields of a head tell.
ghost use Rattle.std.specs.Prelude.{◌≡◌, ◌≤◌, [], ◌∷◌, min, length, map, drop, codes, All, IsTrue, MatchOption, IfSome};
ghost use Rattle.std.specs.Prelude.{IfErr};
ghost use Rattle.std.specs.Option.{option_map, option_to_list};
ghost use Rattle.std.specs.List.{list_all, list_any};
ghost use Rattle.std.specs.Char.{is_ascii_digit};
ghost use Rattle.cw_types.specs.Decimal.{read_on};
ghost use Rattle.httparse.specs.Spans.{IsHeaderWithin, header_bytes};
ghost use Rattle.cw_http.specs.Fields.{is_same_text, value_of, values_of, is_close, is_length, length_of, length_in};
ghost use Rattle.cw_http.specs.Fields.{body_length, closes};
ghost use Rattle.cw_http.specs.Kept.{IsRefusalCode};

use httparse::spans::HeaderSpan;

// Whether two texts are the same but for the case of letters.
fn is_same_text(a: &[u8], b: &[u8]) -> bool
    ensures { result ≡ is_same_text a.now b.now }
{
    a.eq_ignore_ascii_case(b)
}

// The value of a field, if it has this name.
fn value_of<'a>(head: &'a [u8], field: &HeaderSpan, name: &[u8]) -> Option<&'a [u8]>
    requires { IsHeaderWithin (length head.now) field.now }
    ensures { option_map (λ value. value.now) result ≡ value_of name.now (header_bytes head.now field.now) }
{
    if is_same_text(field.name.of(head), name) {
        Some(field.value.of(head))
    } else {
        None
    }
}

// The first value under this name, and how many fields stand up to it.
fn first_value<'a>(head: &'a [u8], fields: &[HeaderSpan], name: &[u8]) -> Option<(&'a [u8], usize)>
    requires { All (IsHeaderWithin (length head.now)) fields.now }
    ensures value { MatchOption result (values_of name.now (map (header_bytes head.now) fields.now) ≡ [])
        (λ found. values_of name.now (map (header_bytes head.now) fields.now)
        ≡ found.0.now ∷ values_of name.now (map (header_bytes head.now) (drop found.1 fields.now))) }
    ensures within { IfSome result (λ found. found.1 ≤ length fields.now) }
{
    for (at, field) in fields.iter().enumerate() {
        if let Some(value) = value_of(head, field, name) {
            return Some((value, at + 1));
        }
    }
    None
}

// Whether a Connection field closes.
fn asks_to_close(head: &[u8], fields: &[HeaderSpan]) -> bool
    requires { All (IsHeaderWithin (length head.now)) fields.now }
    ensures { result ≡ list_any is_close (values_of (codes "connection") (map (header_bytes head.now) fields.now)) }
{
    for field in fields {
        if is_closing(value_of(head, field, b"connection")) {
            return true;
        }
    }
    false
}

// Whether a value is there, and closes.
fn is_closing(value: Option<&[u8]>) -> bool
    ensures { result ≡ list_any is_close (option_to_list (option_map (λ v. v.now) value.entry)) }
{
    match value {
        Some(value) => is_same_text(value, b"close"),
        None => false,
    }
}

// Whether the connection closes behind a request of HTTP/1.minor with these fields.
pub(crate) fn closes(head: &[u8], fields: &[HeaderSpan], minor: u8) -> bool
    requires { All (IsHeaderWithin (length head.now)) fields.now }
    ensures { result ≡ closes minor (map (header_bytes head.now) fields.now) }
{
    minor == 0 || asks_to_close(head, fields)
}

// Whether a text is 1 to 18 digits.
fn is_length(text: &[u8]) -> bool
    ensures { result ≡ is_length text.now }
{
    if text.is_empty() || text.len() > 18 {
        return false;
    }
    all_digits(text)
}

fn all_digits(text: &[u8]) -> bool
    ensures { result ≡ list_all is_ascii_digit text.now }
{
    text.iter().all(|byte| byte.is_ascii_digit())
}

// The number that digits are, or one above the limit of a body if it is above that.
fn number_of(digits: &[u8]) -> u64
    ensures { result ≡ min (read_on 0 digits.now) 1048577 }
{
    let mut number: u64 = 0;
    for digit in digits {
        number = (10 * number + u64::from(digit.saturating_sub(b'0'))).min(1_048_577);
    }
    number
}

// The length that a text is, or one above the limit of a body.
fn length_of(text: &[u8]) -> Option<u64>
    ensures { result ≡ option_map (λ n. min n 1048577) (length_of text.now) }
{
    if is_length(text) {
        Some(number_of(text))
    } else {
        None
    }
}

// The length that the Content-Length fields tell, or one above the limit of a body.
fn content_length(head: &[u8], fields: &[HeaderSpan]) -> Option<u64>
    requires { All (IsHeaderWithin (length head.now)) fields.now }
    ensures { result ≡ option_map (λ n. min n 1048577)
        (length_in (values_of (codes "content-length") (map (header_bytes head.now) fields.now))) }
{
    let Some((value, at)) = first_value(head, fields, b"content-length") else {
        return Some(0);
    };
    if first_value(head, &fields[at..], b"content-length").is_some() {
        return None;
    }
    length_of(value)
}

// The length of the body behind a head, or the code of the refusal.
pub(crate) fn body_length(head: &[u8], fields: &[HeaderSpan]) -> Result<usize, u16>
    requires { All (IsHeaderWithin (length head.now)) fields.now }
    ensures length { result ≡ body_length (map (header_bytes head.now) fields.now) }
    ensures code { IfErr result IsRefusalCode }
{
    if first_value(head, fields, b"transfer-encoding").is_some() {
        return Err(501);
    }
    match content_length(head, fields) {
        Some(length) if length > 1_048_576 => Err(413),
        Some(length) => Ok(length as usize),
        None => Err(400),
    }
}
