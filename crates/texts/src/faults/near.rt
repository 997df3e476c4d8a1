//! Which word was meant.

ghost use Rattle.std.specs.Prelude.{◌≡◌, IfNone, IfOk, IfSome, IsSome, MatchOption, map, string_bytes};
ghost use Rattle.texts.specs.Nearest.{IsCompared, IsNearest, NoneIsNear, are_few as spec_are_few, in_lower_case};

use std::alloc::{AllocError, Global};
use strsim::osa_distance;

/// The longest word that is compared.
const MAX_WORD: usize = 32;

/// The most edits after which a word is still taken for another.
const MAX_EDITS: usize = 2;

/// A word in lower case; nothing where it is too long, or has a byte that is not ASCII.
fn lower_case(alloc: Global, word: &[u8]) -> Result<Option<String>, AllocError>
    ensures compared { IfOk result (λ text. MatchOption text (¬ IsCompared word.now) (λ _. IsCompared word.now)) }
    ensures text { IfOk result (λ text. IfSome text (λ text. string_bytes text ≡ in_lower_case word.now)) }
{
    if word.len() > MAX_WORD || !word.is_ascii() {
        return Ok(None);
    }
    let mut text = String::new(alloc);
    for byte in word {
        text.push(char::from(byte.to_ascii_lowercase()))?;
    }
    Ok(Some(text))
}

/// Whether this many edits are few for a word of this length.
fn are_few(edits: usize, len: usize) -> bool
    ensures { result ≡ spec_are_few edits len }
{
    edits <= MAX_EDITS && edits.saturating_mul(3) <= len
}

/// The name that a word is nearest to, of those to which few edits lead: a byte more, less or other, or two that are swapped. Upper and lower
/// case are alike.
///
/// # Errors
///
/// Where memory is refused.
pub fn nearest(
    alloc: Global,
    word: &[u8],
    names: &[&'static str],
) -> Result<Option<&'static str>, AllocError>
    ensures compared { IfOk result (λ found. IsSome found → IsCompared word.now) }
    ensures nearest { IfOk result (λ found. IfSome found (λ name. IsNearest (in_lower_case word.now) (map (λ name. name.now) names.now) name.now)) }
    ensures none { IfOk result (λ found. IfNone found (IsCompared word.now → NoneIsNear (in_lower_case word.now) (map (λ name. name.now) names.now))) }
{
    let Some(text) = lower_case(alloc, word)? else {
        return Ok(None);
    };
    let mut nearest = None;
    let mut least = usize::MAX;
    for name in names {
        let edits = osa_distance(alloc, text.as_str(), *name)?;
        if edits < least && are_few(edits, text.len()) {
            least = edits;
            nearest = Some(*name);
        }
    }
    Ok(nearest)
}
