//! Laws of the base that a lawful list of records makes, which hold of its definition. The crates above cite
//! them.

ghost use Rattle.std.specs.Prelude.{◌≡◌, List, [], ◌++◌};
ghost use Rattle.graph_model.specs.declared.record.Record.{Record};
ghost use Rattle.graph_model.specs.Graph.{at};
ghost use Rattle.graph_model.specs.Records.{Lawful, Continues, IsGood};
ghost use Rattle.graph_recover.specs.Bases.{base_of};

/// A run may start from the base of any log.
pub fn the_base_of_a_log_is_good()
    ensures { (records : List Record) → Lawful records → IsGood (base_of records) }
{}

/// What continues the base of a log may stand in that log behind its records.
pub fn what_continues_the_base_follows_the_records()
    ensures { (records more : List Record) → Lawful records → Continues (base_of records) more →
        Lawful (records ++ more) }
{}

/// The graph of the base of a log is the one at the last epoch of its records.
pub fn the_base_stands_at_the_last_epoch()
    ensures { (records : List Record) → Lawful records →
        (base_of records).graph ≡ at [] records (base_of records).epoch }
{}
