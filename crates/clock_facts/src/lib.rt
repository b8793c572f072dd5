//! What the clock of a kept state of the core knows of the actors: what the parts of a store ask of it.
#![tactic(auto)]

ghost use Rattle.graph_model.specs.declared.graph.Base.{Base};
ghost use Rattle.core_states.specs.Names.{Name};
ghost use Rattle.core_states.specs.RowEvents.{Limits};
ghost use Rattle.core_states.specs.States.{State};
ghost use Rattle.core_kept.specs.Bounds.{Kept};
ghost use Rattle.clock_facts.specs.Known.{KnowsActor};

/// The clock of a kept state knows each actor: the transaction that it runs, and the records that it collected.
pub fn the_clock_knows_each_actor()
    ensures { (base : Base) (most : Limits) (s : State) (i : Name) → Kept base most s → KnowsActor s.clock (s.actor i) }
{}
