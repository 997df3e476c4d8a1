//! What the constants of [`Changes`] have.

ghost use Rattle.std.specs.Prelude.{◌≡◌, true, false};
ghost use Rattle.shared.specs.Changes.{are_one, is_end, is_told};

use crate::changes::{Change, Changes};

/// What the constants of [`Changes`] have: none, all, each end, and just one each.
#[tactic(auto, using(crate::proofs::Bits::told_by_all))]
pub fn constants_name_their_changes()
    ensures none { (change : Change) → is_told Changes.NONE change ≡ false }
    ensures all { (change : Change) → is_told Changes.ALL change ≡ true }
    ensures ended { (change : Change) → is_told Changes.ENDED change ≡ is_end change }
    ensures room { (change : Change) → is_told Changes.ROOM change ≡ are_one Change.Room change }
    ensures posted { (change : Change) → is_told Changes.POSTED change ≡ are_one Change.Posted change }
    ensures rung { (change : Change) → is_told Changes.RUNG change ≡ are_one Change.Rung change }
{}
