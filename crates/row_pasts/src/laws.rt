//! What each event of a row keeps. The crates above cite these laws.

ghost use Rattle.std.specs.Prelude.{◌≡◌, ℕ, ◌≤◌, ◌<◌, true, false, List, [], ◌∷◌, ◌++◌, Option};
ghost use Rattle.graph_model.specs.declared.change.Change.{Change};
ghost use Rattle.graph_model.specs.declared.change.Change.TheVariants as change;
ghost use Rattle.graph_model.specs.declared.pairs.Pair.{Pair};
ghost use Rattle.stamps.specs.Stamps.{Txn};
ghost use Rattle.core_rows.specs.Rows.{Row, Life, life_of, newest, is_there, taken_row, put_row, del_row, push_row, apply_row, undo_row};
ghost use Rattle.row_pasts.specs.Lives.{Past, life_step, list_step, fits, stamped};
ghost use Rattle.row_pasts.specs.RowFits.{Rooted, RowFits};

/// A change of a row that its transaction has taken adds to what the row stands for of the transaction: a put, a
/// del, and a version that is pushed. The row is of no commit after the snapshot, and its vertex is there.
pub fn a_change_adds_to_the_own_changes()
    ensures put { (f : ℕ) (base : Rooted) (past : List Past) (t r : ℕ) (own : List Change) (v l d : ℕ) (p : List ℕ)
        (row : Row) → row.committed ≤ r
        → is_there (newest row.versions r (Txn t)) ≡ true → RowFits f base past own (taken_row t row)
        → RowFits f base past (own ++ change.Put v l d p ∷ []) (put_row t r l d p row) }
    ensures del { (f : ℕ) (base : Rooted) (past : List Past) (t r : ℕ) (own : List Change) (v l d : ℕ) (row : Row)
        → row.committed ≤ r
        → is_there (newest row.versions r (Txn t)) ≡ true → RowFits f base past own (taken_row t row)
        → RowFits f base past (own ++ change.Del v l d ∷ []) (del_row t r l d row) }
    ensures push { (f : ℕ) (base : Rooted) (past : List Past) (t r : ℕ)
        (own : List Change) (c : Change) (content : Option (List ℕ)) (row : Row) → row.committed ≤ r
        → ((x : Life) → life_step c x ≡ life_of content) → ((l : ℕ) (xs : List Pair) → list_step l c xs ≡ xs)
        → ((x : Life) → fits c x ≡ is_there x)
        → is_there (newest row.versions r (Txn t)) ≡ true → RowFits f base past own (taken_row t row)
        → RowFits f base past (own ++ c ∷ []) (push_row t content row) }
{}

/// After an apply the row stands for the past with the owner's changes, at their epoch, and is free; where the
/// owner did not change the vertex, for the past as it was. After an undo it stands for the past alone.
pub fn the_end_of_an_owner_frees_its_row()
    ensures applied { (f : ℕ) (base : Rooted) (past : List Past) (t e : ℕ) (c : Change) (own : List Change)
        (row : Row) → row.committed < e
        → RowFits f base past (c ∷ own) (taken_row t row)
        → RowFits f base (past ++ stamped e (c ∷ own)) [] (apply_row t e true row) }
    ensures released { (f : ℕ) (base : Rooted) (past : List Past) (t e : ℕ) (row : Row)
        → RowFits f base past [] (taken_row t row) → RowFits f base past [] (apply_row t e false row) }
    ensures undone { (f : ℕ) (base : Rooted) (past : List Past) (t : ℕ) (own : List Change) (row : Row)
        → RowFits f base past own (taken_row t row) → RowFits f base past [] (undo_row t row) }
{}
