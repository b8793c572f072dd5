//! What the calls of the log's value make of the core's log part is what its events make of it, and what a leader of
//! commits has collected may be appended.

ghost use Rattle.std.specs.Prelude.{◌≡◌, ℕ, ◌+◌, ◌<◌, ◌≤◌, ◌++◌, true, false, List, length, Some, None};
ghost use Rattle.graph_model.specs.declared.graph.Base.{Base};
ghost use Rattle.graph_model.specs.declared.record.Outcome.TheVariants as outcomes;
ghost use Rattle.graph_model.specs.Records.{IsGood, number_end};
ghost use Rattle.group_commit.specs.Encoded.{Encoded};
ghost use Rattle.group_commit.specs.Members.{records_at};
ghost use Rattle.graph_wal.specs.Pieces.{AreWithin};
ghost use Rattle.core_states.specs.declared.actor.Actor.{Actor};
ghost use Rattle.core_states.specs.declared.clock.Clock.{Clock};
ghost use Rattle.core_states.specs.declared.event.CoreAnswer.TheVariants as answers;
ghost use Rattle.core_states.specs.Laters.{opened_records};
ghost use Rattle.core_states.specs.LogEvents.{writes, mends, fails, without_group};
ghost use Rattle.core_states.specs.LogParts.{LogPart, is_held_by};
ghost use Rattle.core_states.specs.Names.{Name};
ghost use Rattle.core_states.specs.Numbers.{numbered, settled_as};
ghost use Rattle.core_states.specs.Openings.{IsAllowed};
ghost use Rattle.core_states.specs.RowEvents.{Limits};
ghost use Rattle.core_states.specs.States.{State};
ghost use Rattle.core_kept.specs.Bounds.{Kept};
ghost use Rattle.store_log.specs.LogChanges.{with_group, with_fault, without_fault, in_hands, MayWrite, IsBaseOf, CanAppend, HasCollected};
ghost use Rattle.turn_board.specs.Turns.{Told};
ghost use Rattle.turn_board.specs.Views.{View};

/// An append that was answered is the event by which its actor writes its group; one that met a fault, or a mend that
/// did, is the event by which its group fails; and a mend that was answered is that by which an actor mends the log.
pub fn the_calls_are_events()
    ensures append { (i : Name) (log : LogPart) (a : Actor) (m : ℕ) → a.written ≡ false → log.mended ≡ true
        → log.moment ≤ m → writes m i (in_hands i log) a ≡ Some (record {
          answer = answers.Done;
          log = in_hands i (with_group m (numbered (log.durable + 1) a.group) log);
          actor = record a { written = true; looked = None };
        }) }
    ensures fault { (i : Name) (log : LogPart) (k : Clock) (a : Actor) (before after : ℕ) → log.holder ≡ None
        → a.written ≡ false → before < after → log.greatest ≤ before
        → fails before after i (in_hands i log) k a ≡ Some (record {
          answer = answers.Done;
          log = with_fault after (numbered (log.durable + 1) a.group) log;
          clock = record k { outcomes = k.outcomes ++ settled_as (outcomes.Failed before after) a.group };
          actor = without_group (outcomes.Failed before after) a;
        }) }
    ensures mend { (i : Name) (log : LogPart) (a : Actor) → log.mended ≡ false
        → mends i (in_hands i log) a ≡ Some (record {
          answer = answers.Done;
          log = in_hands i (without_fault log);
          actor = record a { looked = None };
        }) }
{}

/// The records of a group's members get its epoch, whichever they had before.
pub fn members_get_the_epoch_of_their_group()
    ensures { (e before : ℕ) (members : List Encoded) → numbered e (records_at before members) ≡ records_at e members }
{}

/// What an actor of the core has collected, and not written, may be appended: behind the durable records it is lawful,
/// where the base is that of the log that was found; its members are some and within the limits; and the last durable
/// epoch is within the numbers.
pub fn what_a_leader_collected_may_be_appended()
    ensures epoch { (base : Base) (most : Limits) (s : State) → IsGood base → Kept base most s
        → s.log.durable ≤ number_end }
    ensures lawful { (base : Base) (most : Limits) (s : State) (i : Name) → IsGood base → IsAllowed most
        → Kept base most s → IsBaseOf base (opened_records s.log.disk) → is_held_by i s.log.holder ≡ true
        → (s.actor i).written ≡ false
        → MayWrite s.log (numbered (s.log.durable + 1) (s.actor i).group) }
    ensures members { (base : Base) (most : Limits) (s : State) (i : Name) (before : ℕ) (members : List Encoded)
        → IsAllowed most → Kept base most s → is_held_by i s.log.holder ≡ true
        → (s.actor i).group ≡ records_at before members
        → (0 < length members) × AreWithin members }
{}

/// So may what an actor of a pass has collected, as the pass is told of the state.
pub fn what_a_pass_has_collected_may_be_appended()
    ensures { (shards : ℕ) (v : View) (n : Name) (log : LogPart) (members : List Encoded) → Told (shards + 2) v
        → IsBaseOf v.base v.found.records → HasCollected shards v n log members → CanAppend log members }
{}
