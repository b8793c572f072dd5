//! Laws of the definitions. The crates above cite them.

ghost use Rattle.std.specs.Prelude.{ℕ, List};
ghost use Rattle.graph_model.specs.declared.graph.Base.{Base};
ghost use Rattle.core_states.specs.declared.actor.Actor.{Actor};
ghost use Rattle.core_states.specs.declared.event.Act.{Act};
ghost use Rattle.core_states.specs.declared.transaction.Receipt.{Receipt};
ghost use Rattle.core_states.specs.Enabled.{TellsEnabled};
ghost use Rattle.core_states.specs.Names.{Name};
ghost use Rattle.core_states.specs.Parts.{Part, local};
ghost use Rattle.core_states.specs.RowEvents.{Limits};
ghost use Rattle.core_states.specs.SessionParts.{remembering, IsAlike};
ghost use Rattle.core_states.specs.States.{State};

/// Whatever an actor remembers of ended transactions and of numbers drawn, an event of it answers the same, and
/// leaves the same parts and the same session: a store's session keeps all else, and not these.
pub fn an_event_asks_its_session_alone()
    ensures { (most : Limits) (base : Base) (i : Name) (action : Act) (held : List Part)
        (receipts : List Receipt) (drew : List ℕ) (a : Actor) →
        IsAlike (local most base i action held a) (local most base i action held (remembering receipts drew a)) }
{}

/// An event answers NotEnabled exactly where its condition does not hold, and then nothing changes.
pub fn what_is_not_enabled_changes_nothing()
    ensures { (most : Limits) (s : State) (i : Name) (action : Act) → TellsEnabled most s i action }
{}
