//! Laws of the board's definitions. The crates above cite them.

ghost use Rattle.std.specs.Prelude.{◌≡◌, ◌≢◌, ℕ, ◌<◌, ◌+◌, ◌%◌, true, List, [], ◌∷◌};
ghost use Rattle.graph_model.specs.declared.graph.Base.{Base};
ghost use Rattle.core_states.specs.Openings.{opening};
ghost use Rattle.core_states.specs.LogParts.{Found, LogPart};
ghost use Rattle.core_states.specs.Parts.{Parts, state_of_parts};
ghost use Rattle.core_states.specs.Sound.{Sound};
ghost use Rattle.core_states.specs.declared.clock.Clock.{Clock};
ghost use Rattle.core_states.specs.declared.event.Reach.{Reach};
ghost use Rattle.core_states.specs.declared.event.Reach.TheVariants as reach;
ghost use Rattle.core_states.specs.ClockEvents.{ClockMove};
ghost use Rattle.core_states.specs.RowEvents.{RowMove};
ghost use Rattle.core_states.specs.LogEvents.{LogMove, GroupMove};
ghost use Rattle.core_states.specs.Moves.{clock_move, row_move, log_move, group_move};
ghost use Rattle.core_states.specs.RowEvents.{Limits};
ghost use Rattle.core_states.specs.States.{reach_of, clock_event, row_event, log_event, group_event};
ghost use Rattle.core_states.specs.Parts.{Part, OfShard, OfClock, OfLog, VertexRow, LocalMove, local, covers, actor_of, row_of, with_row_of};
ghost use Rattle.turn_board.specs.Works.{turns_under, held_turns, held_parts, holding, giving, IsLeft, Leads, SaysSame};
ghost use Rattle.turn_board.specs.Ones.{DoesOne, going_on_log};
ghost use Rattle.turn_board.specs.Views.{Done, View, In, numbers, behind};
ghost use Rattle.turn_board.specs.Histories.{Reached};
ghost use Rattle.turn_board.specs.Openings.{opening_of};

/// Shards without rows, with the clock that the base opens, stand for the state that a run starts with.
pub fn shards_without_rows_open()
    ensures { (base : Base) (most : Limits) (found : Found) (shards : ℕ) → 0 < shards →
        state_of_parts base (opening_of base most found shards) ≡ opening base found }
{}

/// What a run of events led to is a sound state of the core.
pub fn what_is_reached_is_sound()
    ensures { (base : Base) (parts : Parts) (run : List Done) → Reached base parts run →
        Sound base (state_of_parts base parts) }
{}

/// One event of an actor of the pass, on the turns that it holds, leads to what its move leaves: so a call of
/// the core on the values that were taken is what a give wants.
pub fn one_event_leads()
    ensures held { (shards : ℕ) (v : View) (held : Reach) (e : Done) (m : LocalMove) (part : Part) →
        In e.by.pass (numbers v) → turns_under shards held ≡ held_turns v.held → covers held (reach_of e.act) ≡ true
        → local v.limits v.base e.by e.act (held_parts v.held) (actor_of v.base v.actors e.by) ≡ m →
        e.answer ≡ m.answer → IsLeft v.base part (holding m.parts v.held)
        → DoesOne shards v e part (behind (holding m.parts v.held)) m.actor }
    ensures row { (shards x : ℕ) (v : View) (rows rows' : List VertexRow) (e : Done) (m : RowMove) →
        In e.by.pass (numbers v) → v.held ≡ record { turn = x % shards; part = OfShard rows } ∷ [] →
        reach_of e.act ≡ reach.Row x
        → row_move (row_of v.base rows x) (actor_of v.base v.actors e.by)
        (row_event v.limits e.act (row_of v.base rows x) (actor_of v.base v.actors e.by)) ≡ m →
        e.answer ≡ m.answer
        → row_of v.base rows' x ≡ m.row → ((w : ℕ) → w ≢ x → row_of v.base rows' w ≡ row_of v.base rows w)
        → DoesOne shards v e (OfShard rows') [] m.actor }
    ensures clock { (shards : ℕ) (v : View) (k : Clock) (e : Done) (m : ClockMove) →
        In e.by.pass (numbers v) → v.held ≡ record { turn = shards; part = OfClock k } ∷ [] →
        reach_of e.act ≡ reach.Clock
        → clock_move k (actor_of v.base v.actors e.by)
        (clock_event e.act k (actor_of v.base v.actors e.by)) ≡ m → e.answer ≡ m.answer
        → DoesOne shards v e (OfClock m.clock) [] m.actor }
    ensures log { (shards : ℕ) (v : View) (log : LogPart) (e : Done) (m : LogMove) →
        In e.by.pass (numbers v) → v.held ≡ record { turn = shards + 1; part = OfLog log } ∷ [] →
        reach_of e.act ≡ reach.Log
        → log_move log (actor_of v.base v.actors e.by)
        (log_event e.act e.by log (actor_of v.base v.actors e.by)) ≡ m → e.answer ≡ m.answer
        → DoesOne shards v e (OfLog m.log) [] m.actor }
    ensures group { (shards : ℕ) (v : View) (log : LogPart) (k : Clock) (e : Done) (m : GroupMove) →
        In e.by.pass (numbers v)
        → v.held ≡ record { turn = shards; part = OfClock k } ∷
        record { turn = shards + 1; part = OfLog log } ∷ [] → reach_of e.act ≡ reach.LogAndClock
        → group_move log k (actor_of v.base v.actors e.by)
        (group_event e.act e.by log k (actor_of v.base v.actors e.by)) ≡ m → e.answer ≡ m.answer
        → DoesOne shards v e (OfClock m.clock) (record { turn = shards + 1; part = OfLog m.log } ∷ []) m.actor }
    ensures beside { (shards : ℕ) (v : View) (log : LogPart) (k : Clock) (e : Done) (m : ClockMove) →
        In e.by.pass (numbers v)
        → v.held ≡ record { turn = shards; part = OfClock k } ∷
        record { turn = shards + 1; part = OfLog log } ∷ [] → reach_of e.act ≡ reach.Clock
        → clock_move k (actor_of v.base v.actors e.by)
        (clock_event e.act k (actor_of v.base v.actors e.by)) ≡ m → e.answer ≡ m.answer
        → DoesOne shards v e (OfClock m.clock) (record { turn = shards + 1; part = OfLog log } ∷ []) m.actor }
{}

/// While the pass holds the log's turn and the clock's, events may follow an event on the log part, and all of them are
/// named when the clock is given: so a leader names that its group is durable together with the publish.
pub fn events_may_follow_one_on_the_log()
    ensures { (shards : ℕ) (v : View) (log : LogPart) (k : Clock) (e : Done) (m : LogMove) (es : List Done)
        (part : Part) → In e.by.pass (numbers v)
        → v.held ≡ record { turn = shards; part = OfClock k } ∷
        record { turn = shards + 1; part = OfLog log } ∷ [] → reach_of e.act ≡ reach.Log
        → log_move log (actor_of v.base v.actors e.by)
        (log_event e.act e.by log (actor_of v.base v.actors e.by)) ≡ m → e.answer ≡ m.answer
        → Leads shards (going_on_log shards k m e v) es part
        → Leads shards v (e ∷ es) part × (giving (e ∷ es) v ≡ giving es (going_on_log shards k m e v)) }
{}

/// A shard that has loaded a row, as it is, says what it said: it can be given back with no event done.
pub fn a_loaded_row_says_the_same()
    ensures { (base : Base) (rows : List VertexRow) (x : ℕ) →
        SaysSame base (OfShard (with_row_of (record { vertex = x; row = row_of base rows x }) rows)) (OfShard rows) }
{}
