//! What an actor of the first pass does before its commit is led, each event under the turn of what it works on.

ghost use Rattle.std.specs.Prelude.{◌≡◌, ◌≤◌, []};
ghost use Rattle.graph_model.specs.Records.{number_end};
ghost use Rattle.core_states.specs.declared.event.Act.TheVariants as acts;
ghost use Rattle.core_states.specs.Openings.{run_limits};
ghost use Rattle.core_states.specs.States.{clock_event, reach_of, row_event};
ghost use Rattle.core_states.specs.declared.event.Reach.TheVariants as reaches;
ghost use Rattle.turn_board.specs.Boards.{IsOf};
ghost use Rattle.turn_board.specs.Board.{known, turns, Ready, SameSeat};
ghost use Rattle.leader_trial.specs.Done.{done_if};
ghost use Rattle.leader_trial.specs.Leads.{Went};
ghost use Rattle.leader_trial.specs.Idle.{IsIdle, DoesOnClockIf, DoesOnRowIf};

use crate::events::Called;
use crate::parts::{Board, CLOCK, FIRST, Holder, Rows, SHARD};
use core_events::clock_events::{begin, draw, enqueue, open};
use core_events::row_events::make_vertex;
use core_states::{Act, Actor, Clock, CoreAnswer};
use graph_model::Payload;
use std::alloc::Global;
use std::sync::Wait;
use turn_board::Home;

// Opens a row, begins, draws a number or queues a record, where there is memory. No other act is done.
fn try_on_clock(
    alloc: Global,
    act: &Act,
    clock: &mut Clock,
    actor: &mut Actor,
) -> Option<CoreAnswer>
    requires tids { clock.old.next_tid ≤ number_end }
    requires vertices { clock.old.next_vertex ≤ number_end }
    ensures { DoesOnClockIf (clock_event act.now clock.old actor.old)
        clock.old actor.old result clock.new actor.new }
{
    match act {
        Act::Open => Some(open(clock, actor)),
        Act::Begin => begin(alloc, clock, actor).ok(),
        Act::Draw => draw(clock, actor).ok(),
        Act::Enqueue => enqueue(alloc, clock, actor).ok(),
        _ => None,
    }
}

// Makes the first vertex in its row, where there is memory.
fn try_make(alloc: Global, p: Payload, rows: &mut Rows, actor: &mut Actor) -> Option<CoreAnswer>
    ensures { DoesOnRowIf (row_event run_limits (acts.New 1 p) rows.old.first actor.old)
        rows.old.first actor.old result rows.new.first actor.new }
{
    make_vertex(alloc, FIRST, p, &mut rows.first, actor).ok()
}

/// Opens the actor's row, begins, draws a vertex number or queues the record, under the clock's turn, which is taken
/// and given back. No other act is done. What is answered is noted; where there is no memory nothing is done.
///
/// Nothing here says that the wait ends. Time: one step for each change of the record that is queued.
pub fn on_clock<R: Wait>(
    rt: &R,
    alloc: Global,
    board: &Board,
    pass: &mut Holder,
    me: u32,
    act: Act,
    actor: &mut Actor,
) -> Option<CoreAnswer>
    requires own { IsOf board.now pass.old × (turns pass.old ≡ 3) }
    requires ready { Ready pass.old }
    requires idle { IsIdle me actor.old (known pass.old) }
    requires act { reach_of act ≡ reaches.Clock }
    ensures went { Went me (done_if me act result) actor.new [] (known pass.old) (known pass.new) }
    ensures ready { Ready pass.new }
    ensures idle { IsIdle me actor.new (known pass.new) }
    ensures keeps { SameSeat pass.old pass.new }
{
    let mut hand = board.take_clock(rt, pass, CLOCK);
    let answer = try_on_clock(alloc, &act, &mut hand.clock, actor);
    let called = Called {
        me,
        act,
        answer: &answer,
    };
    board.give(pass, CLOCK, Home::Clock(hand), &called);
    drop(called);
    answer
}

/// Makes the first vertex, under the shard's turn, which is taken and given back. What is answered is noted; where
/// there is no memory nothing is done.
///
/// Nothing here says that the wait ends. Time: one step.
pub fn make_first<R: Wait>(
    rt: &R,
    alloc: Global,
    board: &Board,
    pass: &mut Holder,
    me: u32,
    p: Payload,
    actor: &mut Actor,
) -> Option<CoreAnswer>
    requires own { IsOf board.now pass.old × (turns pass.old ≡ 3) }
    requires ready { Ready pass.old }
    requires idle { IsIdle me actor.old (known pass.old) }
    ensures went { Went me (done_if me (acts.New 1 p) result) actor.new [] (known pass.old) (known pass.new) }
    ensures ready { Ready pass.new }
    ensures idle { IsIdle me actor.new (known pass.new) }
    ensures keeps { SameSeat pass.old pass.new }
{
    let Ok(named) = p.copy() else {
        return None;
    };
    let mut rows = board.take_shard(rt, pass, SHARD);
    let answer = try_make(alloc, p, &mut rows, actor);
    let called = Called {
        me,
        act: Act::New { v: FIRST, p: named },
        answer: &answer,
    };
    board.give(pass, SHARD, Home::Shard(rows), &called);
    drop(called);
    answer
}
