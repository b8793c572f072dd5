//! What every event keeps. The crates above cite these laws.

ghost use Rattle.graph_model.specs.declared.graph.Base.{Base};
ghost use Rattle.core_states.specs.declared.event.Act.{Act};
ghost use Rattle.core_states.specs.Names.{Name};
ghost use Rattle.core_states.specs.RowEvents.{Limits};
ghost use Rattle.core_states.specs.States.{State, after};
ghost use Rattle.core_states.specs.LogParts.{Found};
ghost use Rattle.core_states.specs.Openings.{opening, MayOpen};
ghost use Rattle.core_kept.specs.Bounds.{Kept};
ghost use Rattle.core_states.specs.Draws.{TidsDrawn, VerticesDrawn};

/// The state that a base opens with is kept, where the base is good and its lists have room in logs.
pub fn a_base_opens_kept()
    ensures { (base : Base) (found : Found) (most : Limits) → MayOpen base most → Kept base most (opening base found) }
{}

/// Every event of every actor leads from a kept state to a kept state.
pub fn every_event_keeps()
    ensures { (base : Base) (most : Limits) (s : State) (i : Name) (action : Act) →
        Kept base most s → Kept base most (after most s i action) }
{}

/// Each transaction number that was drawn is that of one transaction of one actor.
pub fn each_transaction_number_has_one_actor()
    ensures opened { (base : Base) (found : Found) → TidsDrawn base (opening base found) }
    ensures kept { (base : Base) (most : Limits) (s : State) (i : Name) (action : Act) →
        TidsDrawn base s → TidsDrawn base (after most s i action) }
{}

/// Each vertex number that was drawn was drawn by one actor.
pub fn each_vertex_number_has_one_actor()
    ensures opened { (base : Base) (found : Found) → VerticesDrawn base (opening base found) }
    ensures kept { (base : Base) (most : Limits) (s : State) (i : Name) (action : Act) →
        VerticesDrawn base s → VerticesDrawn base (after most s i action) }
{}
