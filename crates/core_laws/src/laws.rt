//! What holds of every kept state, and of every event on it. The crates above cite these laws.

ghost use Rattle.std.specs.Prelude.{◌≡◌, ◌≢◌, ℕ, ◌<◌, List, length, true};
ghost use Rattle.graph_model.specs.declared.graph.Base.{Base};
ghost use Rattle.graph_model.specs.Records.{IsGood};
ghost use Rattle.core_states.specs.declared.event.Act.{Act};
ghost use Rattle.core_states.specs.Names.{Name};
ghost use Rattle.core_states.specs.RowEvents.{Limits};
ghost use Rattle.core_states.specs.States.{State, reach_of, answer_to, after};
ghost use Rattle.core_states.specs.LogParts.{Found, LogPart};
ghost use Rattle.core_states.specs.declared.clock.Clock.{Clock};
ghost use Rattle.core_states.specs.declared.event.Reach.{Reach};
ghost use Rattle.core_states.specs.Openings.{opening, IsAllowed, MayOpen};
ghost use Rattle.core_kept.specs.Bounds.{Kept};
ghost use Rattle.core_states.specs.Sound.{Sound, RunsAt};
ghost use Rattle.core_states.specs.declared.transaction.Transaction.{Transaction};
ghost use Rattle.core_states.specs.Transactions.{is_working};
ghost use Rattle.core_states.specs.Changes.{ChangesTell};
ghost use Rattle.core_states.specs.Looks.{LooksTell};
ghost use Rattle.graph_model.specs.declared.record.Record.{Record};
ghost use Rattle.core_states.specs.Records.{In};
ghost use Rattle.core_states.specs.Enabled.{is_enabled};
ghost use Rattle.core_states.specs.Faults.{FailedAs, TriedHaveFailed};
ghost use Rattle.core_states.specs.declared.event.Act.TheVariants as acts;
ghost use Rattle.core_states.specs.Ends.{Idle, AllEnded};
ghost use Rattle.core_states.specs.Laters.{Later, LaterLog, ReceiptsStay};
ghost use Rattle.core_states.specs.Reads.{ReadSees};
ghost use Rattle.core_states.specs.Parts.{Parts, NamedActor, actor_of, with_named, state_of_parts, covers, move_of, step, Opens, loaded_parts, bare_parts};

/// A kept state is sound, whose limits are at most those of a run.
pub fn a_kept_state_is_sound()
    ensures { (base : Base) (most : Limits) (s : State) → IsGood base → IsAllowed most → Kept base most s
        → Sound base s }
{}

/// The event on the parts that its actor holds, with all else as it was, is the event on the whole state: the
/// actor holds what the event works on, or the log and the clock.
pub fn an_event_is_local()
    ensures state { (held : Reach) (base : Base) (parts : Parts) (i : Name) (action : Act) → 0 < length parts.shards
        → covers held (reach_of action) ≡ true →
        state_of_parts base (step held base parts i action) ≡ after parts.limits (state_of_parts base parts) i action }
    ensures answer { (held : Reach) (base : Base) (parts : Parts) (i : Name) (action : Act)
        → covers held (reach_of action) ≡ true →
        (move_of held base parts i action).answer ≡ answer_to parts.limits (state_of_parts base parts) i action }
    ensures shards { (held : Reach) (base : Base) (parts : Parts) (i : Name) (action : Act) →
        length (step held base parts i action).shards ≡ length parts.shards }
    ensures limits { (held : Reach) (base : Base) (parts : Parts) (i : Name) (action : Act) →
        (step held base parts i action).limits ≡ parts.limits }
{}

/// Parts whose rows are as the base has them, in any number of shards, stand for the opening state. Such are
/// the parts with all rows of the base loaded, and those with none.
pub fn parts_of_a_base_open()
    ensures loaded { (base : Base) (most : Limits) (found : Found) (count : ℕ) → IsGood base → 0 < count
        → Opens base found (loaded_parts base most found count) }
    ensures bare { (base : Base) (most : Limits) (found : Found) (count : ℕ) → 0 < count
        → Opens base found (bare_parts base most found count) }
    ensures opened { (base : Base) (found : Found) (parts : Parts) → Opens base found parts
        → state_of_parts base parts ≡ opening base found }
{}

/// So the parts that a base opens with stand for a kept state, and an event on the parts that its actor holds
/// leads from such parts to such parts.
pub fn an_event_on_its_parts_keeps()
    ensures opened { (base : Base) (found : Found) (parts : Parts) → MayOpen base parts.limits
        → Opens base found parts → Kept base parts.limits (state_of_parts base parts) }
    ensures kept { (held : Reach) (base : Base) (parts : Parts) (i : Name) (action : Act) → 0 < length parts.shards
        → covers held (reach_of action) ≡ true →
        Kept base parts.limits (state_of_parts base parts)
        → Kept base parts.limits (state_of_parts base (step held base parts i action)) }
{}

/// An event on the parts that its actor holds lowers neither the visible epoch nor a next number, and leaves
/// the records and the moments as they stand, first in their lists: what it adds is of epochs above the last
/// one, and so above the visible one. What was durable at opening and the count at opening never change.
pub fn an_event_on_its_parts_takes_nothing_back()
    ensures clock { (held : Reach) (base : Base) (parts : Parts) (i : Name) (action : Act) → 0 < length parts.shards
        → covers held (reach_of action) ≡ true →
        Kept base parts.limits (state_of_parts base parts) → Later parts.clock (step held base parts i action).clock }
    ensures log { (held : Reach) (base : Base) (parts : Parts) (i : Name) (action : Act) → 0 < length parts.shards
        → covers held (reach_of action) ≡ true →
        LaterLog parts.log (step held base parts i action).log }
{}

/// Nor does an event on the whole state: it takes back neither a number nor an epoch nor a record nor a moment,
/// nothing of the log part, and no receipt.
pub fn every_event_takes_nothing_back()
    ensures clock { (base : Base) (most : Limits) (s : State) (i : Name) (action : Act) →
        Kept base most s → Later s.clock (after most s i action).clock }
    ensures log { (most : Limits) (s : State) (i : Name) (action : Act) → LaterLog s.log (after most s i action).log }
    ensures receipts { (most : Limits) (s : State) (i : Name) (action : Act) → ReceiptsStay s (after most s i action) }
{}

/// A read answers what its query sees of the graph at its transaction's read epoch, with its own changes.
pub fn a_read_sees_its_snapshot()
    ensures { (base : Base) (most : Limits) (s : State) (i : Name) (action : Act) →
        IsGood base → Kept base most s → ReadSees most base s i action }
{}

/// The answer to a change tells whether the vertex, and whether the edge, is in the transaction's snapshot
/// with its own changes. A change is refused as too long exactly where the sum of the lengths passes its limit,
/// and a log as full only where the sizes of all that was put there pass the log's.
pub fn a_change_tells_of_its_snapshot()
    ensures { (base : Base) (most : Limits) (s : State) (i : Name) (x : Transaction) →
        IsGood base → Kept base most s → RunsAt s i x → is_working x ≡ true → ChangesTell most base s i x }
{}

/// A transaction that takes a lock sees every record that changed the vertex, and no other that works took
/// the vertex. A holder that a look finds runs, took the vertex, and has no record that the transaction sees.
/// A conflict is the newest record's that changed the vertex, which no transaction that works has.
pub fn a_look_tells_of_owners_and_records()
    ensures { (base : Base) (most : Limits) (s : State) → Kept base most s → LooksTell s }
{}

/// Once no transaction runs each record has a receipt, and so have each failed record, with its counts, and
/// each holder that a look had found.
pub fn once_nothing_runs_all_have_receipts()
    ensures { (base : Base) (most : Limits) (s : State) → Kept base most s → Idle s → AllEnded s }
{}

/// After a fail each record of the group is that of a failed transaction, and every event leaves it so: the
/// transaction runs, or has a receipt with the counts, and has the record's read epoch and changes.
pub fn failed_records_stay_failed()
    ensures failed { (base : Base) (most : Limits) (s : State) (i : Name) (f c : ℕ) (r : Record) →
        Kept base most s → is_enabled most s i (acts.Fail f c) ≡ true → In r (s.actor i).group
        → FailedAs (after most s i (acts.Fail f c)) f c r }
    ensures kept { (base : Base) (most : Limits) (s : State) (i : Name) (action : Act) (f c : ℕ) (r : Record) →
        Kept base most s → FailedAs s f c r → FailedAs (after most s i action) f c r }
{}

/// So each record that was tried on the disk in vain is that of a failed transaction, in every state of a run.
pub fn what_was_tried_has_failed()
    ensures opened { (base : Base) (found : Found) → TriedHaveFailed (opening base found) }
    ensures kept { (base : Base) (most : Limits) (s : State) (i : Name) (action : Act) →
        Kept base most s → TriedHaveFailed s → TriedHaveFailed (after most s i action) }
{}

/// A clock is later than itself, and than all that an earlier one is later than; and so is a log part. So what one
/// event does not take back, no run of events does.
pub fn later_is_an_order()
    ensures same { (k : Clock) → Later k k }
    ensures still { (k z y : Clock) → Later k z → Later z y → Later k y }
    ensures same_log { (log : LogPart) → LaterLog log log }
    ensures still_log { (log next last : LogPart) → LaterLog log next → LaterLog next last → LaterLog log last }
{}

/// Setting the actor of a name changes that actor, and no other.
pub fn setting_an_actor_changes_it_alone()
    ensures here { (base : Base) (x : NamedActor) (actors : List NamedActor) (n : Name) → n ≡ x.name
        → actor_of base (with_named x actors) n ≡ x.actor }
    ensures there { (base : Base) (x : NamedActor) (actors : List NamedActor) (n : Name) → n ≢ x.name →
        actor_of base (with_named x actors) n ≡ actor_of base actors n }
{}
