//! The words of a line.
ghost use Rattle.std.specs.Prelude.{◌≡◌, ◌<◌, ◌∷◌, None, map, length, IfOk, IfSome, MatchOption};
ghost use Rattle.cw_script.specs.Words.{words, words_behind, now_of, left_of};

use memchr::memchr;
use std::alloc::{AllocError, Global};

/// The first word of a text, and what stands behind its space, where there is one.
pub fn cut(text: &[u8]) -> (&[u8], Option<&[u8]>)
    ensures words { words text.now ≡ result.0.now ∷ words_behind (now_of result.1) }
    ensures shorter { IfSome result.1 (λ rest. length rest.now < length text.now) }
{
    match memchr(b' ', text) {
        Some(at) => (&text[..at], Some(&text[at + 1..])),
        None => (text, None),
    }
}

/// The first word of a text, where there is one, and what stands behind its space.
pub fn next_word(text: Option<&[u8]>) -> Option<(&[u8], Option<&[u8]>)>
    ensures words { MatchOption result (text.entry ≡ None)
        (λ parts. words_behind (now_of text.entry) ≡ parts.0.now ∷ words_behind (now_of parts.1)) }
    ensures shorter { IfSome result (λ parts. left_of parts.1 < left_of text.entry) }
{
    match text {
        Some(text) => Some(cut(text)),
        None => None,
    }
}

/// The words of a text, or none where there is no text.
pub fn words_of(alloc: Global, text: Option<&[u8]>) -> Result<Vec<&[u8]>, AllocError>
    ensures { IfOk result (λ found. map (λ word. word.now) found.items ≡ words_behind (now_of text.entry)) }
{
    let mut found = Vec::new(alloc);
    let mut left = text;
    while let Some((word, more)) = next_word(left) {
        found.push(word)?;
        left = more;
    }
    Ok(found)
}
