//! Laws of the text of logs, which hold of its definitions. The crates above cite them.

ghost use Rattle.std.specs.Prelude.{◌≡◌, ◌≢◌, ℕ, ◌+◌, List, ◌∷◌, ◌++◌, length, IsTrue};
ghost use Rattle.graph_model.specs.declared.record.Record.{Record};
ghost use Rattle.graph_model.specs.Records.{Lawful};
ghost use Rattle.group_codec.specs.Spelling.{group_bytes, is_group};
ghost use Rattle.group_codec.specs.Log.{log_bytes, records_of, are_groups, LogText, Recovers, FirstBad};

/// Each group has one spelling, which tells where it ends: no two groups stand at the front of the same bytes.
pub fn a_group_has_one_spelling()
    ensures { (d e : ℕ) (g h : List Record) (r s : List ℕ) → IsTrue (is_group d g) → IsTrue (is_group e h) →
        group_bytes d g ++ r ≡ group_bytes e h ++ s →
        (d ≡ e) × (g ≡ h) × (r ≡ s) }
{}

/// Bytes are the text of one log at most.
pub fn a_text_is_of_one_log()
    ensures { (bytes : List ℕ) (groups others : List (List Record)) (gate other : ℕ) (rest more : List ℕ) →
        LogText bytes groups gate rest → LogText bytes others other more →
        (groups ≡ others) × (gate ≡ other) × (rest ≡ more) }
{}

/// What a log recovers to is one list of records and one durable length.
pub fn a_log_recovers_to_one_list()
    ensures { (bytes : List ℕ) (records others : List Record) (durable other : ℕ) → Recovers bytes records durable →
        Recovers bytes others other →
        (records ≡ others) × (durable ≡ other) }
{}

/// A log that is bad has one first bad group.
pub fn one_group_is_the_first_bad_one()
    ensures { (bytes : List ℕ) (place group other number : ℕ) → FirstBad bytes place group →
        FirstBad bytes other number → (place ≡ other) × (group ≡ number) }
{}

/// No log both recovers and has a bad group: so each answer of `decode_log` comes exactly where its cause
/// holds.
pub fn a_bad_log_does_not_recover()
    ensures { (bytes : List ℕ) (records : List Record) (durable place group : ℕ) → Recovers bytes records durable →
        FirstBad bytes place group → ⊥ }
{}

/// What stands in a log is read again: groups and one more behind an open gate, which is lawful behind them,
/// and then a gate that is not open and any rest, recover to their records.
pub fn what_is_written_is_read()
    ensures { (groups : List (List Record)) (g : List Record) (gate : ℕ) (rest : List ℕ) →
        IsTrue (are_groups 0 groups) → IsTrue (is_group (length groups + 1) g) →
        Lawful (records_of groups ++ g) → gate ≢ 1 →
        Recovers (log_bytes groups ++ 1 ∷ (group_bytes (length groups + 1) g ++ gate ∷ rest)) (records_of groups ++ g)
        (length (log_bytes groups) + 1 + length (group_bytes (length groups + 1) g) + 1) }
{}
