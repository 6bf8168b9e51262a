//! Where a head ends.
ghost use Rattle.std.specs.Prelude.{◌≡◌, ◌≤◌, length, IfSome};
ghost use Rattle.cw_http.specs.HeadEnd.{empty_line, head_length};

// How long the empty line is that begins there.
fn empty_line(bytes: &[u8]) -> Option<usize>
    ensures length { result ≡ empty_line bytes.now }
    ensures within { IfSome result (λ n. n ≤ length bytes.now) }
{
    match bytes {
        [b'\n', ..] => Some(1),
        [b'\r', b'\n', ..] => Some(2),
        _ => None,
    }
}

// How long the head at the front of bytes is, its empty line included.
pub(crate) fn head_length(bytes: &[u8]) -> Option<usize>
    ensures length { result ≡ head_length bytes.now }
    ensures within { IfSome result (λ n. n ≤ length bytes.now) }
{
    for (at, byte) in bytes.iter().enumerate() {
        if *byte == b'\n' {
            if let Some(length) = empty_line(&bytes[at + 1..]) {
                return Some(at + 1 + length);
            }
        }
    }
    None
}
