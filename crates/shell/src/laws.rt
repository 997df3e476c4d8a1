//! What the words with a dot have in common.

ghost use Rattle.std.specs.{List.Contains, Prelude.{◌≡◌}};
ghost use Rattle.shell.specs.declared.dot_word.DotWord.{DotWord};
ghost use Rattle.shell.specs.DotWords.{name_of_word};

use crate::dot_word::DOT_WORDS;

/// Each word is one of [`DOT_WORDS`], and no two words have one name.
#[tactic(auto, unfolding(crate::specs::DotWords::name_of_word))]
pub fn words_have_names_of_their_own()
    ensures listed { (word : DotWord) → Contains DOT_WORDS word }
    ensures apart { (one other : DotWord) → name_of_word one ≡ name_of_word other → one ≡ other }
{}
