//! The lines of a text.
ghost use Rattle.std.specs.Prelude.{◌≡◌, ◌+◌, ◌∷◌, ◌++◌, true, MatchOption};
ghost use Rattle.cw_lines.specs.Lines.{is_line};

use memchr::memchr;

/// Cuts a text at its first line end: the line, and what stands behind its end.
pub(crate) fn cut_line(bytes: &[u8]) -> Option<(&[u8], &[u8])>
    ensures parts { MatchOption result (is_line bytes.now ≡ true)
        (λ parts. (bytes.now ≡ parts.0.now ++ 10 ∷ parts.1.now) × (is_line parts.0.now ≡ true)) }
{
    let at = memchr(b'\n', bytes)?;
    Some((&bytes[..at], &bytes[at + 1..]))
}
