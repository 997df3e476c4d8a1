//! The reserved words of options.

ghost use Rattle.std.specs.Prelude.{◌≡◌};
ghost use Rattle.std.specs.List.{list_any};
ghost use Rattle.nvmesgl_c.specs.Requests.{is_set};

/// Whether one of the words is not 0.
pub fn has_set_word(words: &[u32]) -> bool
    ensures { result ≡ list_any is_set words.now }
{
    words.iter().any(|word| *word > 0)
}
