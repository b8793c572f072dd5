//! What a call of the store makes of the core: definitions that the store promises by, and that the law on
//! replies stands on. A call is a short list of events of one actor, each with its answer, while other
//! actors do theirs.
#![tactic(auto)]

ghost use Rattle.std.specs.Prelude.{◌≡◌, ◌≢◌, ℕ, ◌≤◌, ◌<◌, true, List, length};
ghost use Rattle.graph_model.specs.declared.graph.Base.{Base};
ghost use Rattle.core_states.specs.Names.{Name};
ghost use Rattle.core_states.specs.declared.event.Act.{Act};
ghost use Rattle.core_kept.specs.Bounds.{Kept};
ghost use Rattle.core_states.specs.declared.event.Reach.{Reach};
ghost use Rattle.core_states.specs.States.{reach_of};
ghost use Rattle.core_states.specs.Parts.{Parts, state_of_parts, covers, step};
ghost use Rattle.core_calls.specs.Events.{Told, Did};
ghost use Rattle.core_calls.specs.Calls.{IsHeldUp};
ghost use Rattle.core_calls.specs.Looks.{looks};
ghost use Rattle.core_calls.specs.OnParts.{PartsGoOn, DidOnParts};

/// Events on the parts of the core, each on the parts that its actor holds, are those events on the whole.
pub fn events_on_parts_are_events()
    ensures { (base : Base) (name : ℕ → Name) (i : Name) (events : List Told) (p : Parts) (q : Parts) →
        DidOnParts base name i events p q → Did base p.limits name i events (state_of_parts base p) (state_of_parts base q) }
{}

/// The parts lead on by every event of an actor that is none of the pass's: a board that keeps in the view of
/// each pass the parts as its last event left them knows that they lead to the parts as they are.
pub fn parts_go_on_by_events_of_others()
    ensures stay { (base : Base) (name : ℕ → Name) (p : Parts) → 0 < length p.shards →
        Kept base p.limits (state_of_parts base p) → PartsGoOn base name p p }
    ensures event { (held : Reach) (base : Base) (name : ℕ → Name) (p : Parts) (i : Name) (action : Act) → 0 < length p.shards → covers held (reach_of action) ≡ true →
        Kept base p.limits (state_of_parts base p) → ((k : ℕ) → name k ≢ i) → PartsGoOn base name p (step held base p i action) }
    ensures more { (base : Base) (name : ℕ → Name) (p : Parts) (q : Parts) (z : Parts) →
        PartsGoOn base name p q → PartsGoOn base name q z → PartsGoOn base name p z }
{}

/// A call that is held up has looked sixteen times.
pub fn a_call_is_held_up_after_sixteen_looks()
    ensures looks { (v : ℕ) (owner : ℕ) (events : List Told) → IsHeldUp v owner events → 16 ≤ looks events }
    ensures some { (events : List Told) × IsHeldUp 5 2 events }
{}
