//! What the definitions of a table give, and a small table that is computed from them. Each function does nothing, and its clauses are
//! the laws.

ghost use Rattle.std.specs.Prelude.{◌≡◌, ℕ, ◌+◌, ◌≤◌, List, [], ◌∷◌, ◌++◌, length, drop, Some, None};
ghost use Rattle.slot_table.specs.Table.{TableOf, with_row};
ghost use Rattle.slot_table.specs.Rows.{Row, IsDistinct, first_place, place_behind, value_at, without};
ghost use Rattle.slot_table.specs.Walks.{places_of, walk_from};
ghost use Rattle.slot_table.specs.Worked.{row_of, opened, two_put, one_taken, put_again};

/// A record that was put into an empty slot comes back by a take, and leaves the table as it was before the put. A record that was
/// taken and is put again comes after all others.
#[tactic(auto, using(crate::proofs::Walks::put_value, crate::proofs::Walks::put_taken))]
pub fn taken_comes_back<R>()
    ensures value { (table : TableOf R) (q cid : ℕ) (value : R) → value_at table.rows q cid ≡ None
        → value_at (with_row table q cid value).rows q cid ≡ Some value }
    ensures rest { (table : TableOf R) (q cid : ℕ) (value : R) → value_at table.rows q cid ≡ None
        → without (with_row table q cid value).rows q cid ≡ table.rows }
    ensures again { (table : TableOf R) (front back : List (Row R)) (row : Row R) → IsDistinct table.rows → table.rows ≡ front ++ row ∷ back
        → (with_row (record table { rows = without table.rows row.q row.cid }) row.q row.cid row.value).rows ≡ front ++ back ++ row ∷ [] }
{}

/// A walk meets each row once, in the order of the rows, and then ends: it stands at each row in turn. Where it stands at a row, the rows after it
/// are those that it has not met, also after that row was taken.
#[tactic(auto, using(crate::proofs::Walks::walk_all, crate::proofs::Walks::place_behind_row, crate::proofs::Walks::step_behind, crate::proofs::Walks::value_at_row, crate::proofs::Walks::without_row))]
pub fn walk_meets_each_row<R>()
    ensures walk { (rows : List (Row R)) (most : ℕ) → IsDistinct rows → length rows ≤ most
        → walk_from rows (first_place rows) most ≡ places_of rows }
    ensures behind { (front back : List (Row R)) (row : Row R) → IsDistinct (front ++ row ∷ back)
        → place_behind (front ++ row ∷ back) row.q row.cid ≡ first_place back }
    ensures step { (rows : List (Row R)) (n q cid : ℕ) → IsDistinct rows → first_place (drop n rows) ≡ Some (q, cid)
        → place_behind rows q cid ≡ first_place (drop (n + 1) rows) }
    ensures value { (front back : List (Row R)) (row : Row R) → IsDistinct (front ++ row ∷ back)
        → value_at (front ++ row ∷ back) row.q row.cid ≡ Some row.value }
    ensures taken { (front back : List (Row R)) (row : Row R) → IsDistinct (front ++ row ∷ back)
        → without (front ++ row ∷ back) row.q row.cid ≡ front ++ back }
{}

/// Two records are put, the first is taken, and it is put again.
pub fn worked()
    ensures two { two_put.rows ≡ row_of 1 2 70 ∷ row_of 0 1 80 ∷ [] }
    ensures first { first_place two_put.rows ≡ Some (1, 2) }
    ensures behind { place_behind two_put.rows 1 2 ≡ Some (0, 1) }
    ensures last { place_behind two_put.rows 0 1 ≡ None }
    ensures nowhere { place_behind two_put.rows 0 0 ≡ None }
    ensures got { value_at two_put.rows 0 1 ≡ Some 80 }
    ensures taken { one_taken.rows ≡ row_of 0 1 80 ∷ [] }
    ensures empty { value_at one_taken.rows 1 2 ≡ None }
    ensures kept { value_at one_taken.rows 0 1 ≡ Some 80 }
    ensures again { put_again.rows ≡ row_of 0 1 80 ∷ row_of 1 2 70 ∷ [] }
    ensures none { first_place opened.rows ≡ None }
{}
