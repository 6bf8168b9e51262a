//! Lists parted by commas.
ghost use Rattle.std.specs.Prelude.{◌≡◌, ◌==◌, ◌<◌, ◌∷◌, [], IfOk, MatchOption, bytes_eq, length};
ghost use Rattle.std.specs.List.{list_any, position_or_len, before_first, after_first};
ghost use Rattle.cw_plugin.specs.Lists.{elements, has_repeat};

use cw_json::Text;
use std::alloc::{AllocError, Global};

// What stands before the first comma, and behind it.
fn cut_first(text: &str) -> Option<(&str, &str)>
    ensures { MatchOption result (elements text.now ≡ text.now ∷ []) (λ parts.
        (elements text.now ≡ parts.0.now ∷ elements parts.1.now) × (length parts.1.now < length text.now)) }
{
    text.split_once(',')
}

// The elements of a text.
pub(crate) fn elements(alloc: Global, text: &str) -> Result<Vec<Text>, AllocError>
    ensures { IfOk result (λ es. es.items ≡ elements text.now) }
{
    let mut found = Vec::new(alloc);
    let mut rest = text;
    while let Some((front, back)) = cut_first(rest) {
        found.push(Text::of(alloc, front)?)?;
        rest = back;
    }
    found.push(Text::of(alloc, rest)?)?;
    Ok(found)
}

// Whether a text is one of some.
pub(crate) fn is_one_of(texts: &[Text], text: &str) -> bool
    ensures { result ≡ list_any (λ x. bytes_eq x text.now) texts.now }
{
    texts.iter().any(|other| other.as_str() == text)
}

// Whether an element stands again behind itself.
pub(crate) fn has_repeat(texts: &[Text]) -> bool
    ensures { result ≡ has_repeat texts.now }
{
    let mut rest = texts;
    while let Some((first, more)) = rest.split_first() {
        if is_one_of(more, first.as_str()) {
            return true;
        }
        rest = more;
    }
    false
}
