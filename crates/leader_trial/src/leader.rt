//! A leader of commits: it takes the log's turn, collects a group under the clock's beside it, appends the group, and
//! publishes it or gives it up under the clock's again.

ghost use Rattle.std.specs.Prelude.{◌≡◌, ◌≤◌, ◌<◌, ◌++◌, []};
ghost use Rattle.graph_model.specs.Records.{number_end};
ghost use Rattle.core_states.specs.declared.event.Act.TheVariants as acts;
ghost use Rattle.core_states.specs.States.{first_name};
ghost use Rattle.core_states.specs.LogEvents.{writes, collects, publishes, fails};
ghost use Rattle.core_events.specs.CoreLogs.{log_of};
ghost use Rattle.turn_board.specs.Boards.{IsOf};
ghost use Rattle.turn_board.specs.Board.{known, turns, Ready, SameSeat};
ghost use Rattle.turn_board.specs.Turns.{Told};
ghost use Rattle.turn_board.specs.Works.{giving};
ghost use Rattle.leader_trial.specs.Done.{done_if};
ghost use Rattle.leader_trial.specs.Leads.{Went, IsFirst, own_actor, log_held, DoesOnGroupIf, DoesOnLogIf, ended_by, led_by};

use crate::events::{Append, Called, Led, Written};
use crate::parts::{Board, CLOCK, Holder, LOG, Paper};
use core_events::CoreLog;
use core_events::log_events::{collect, fail, publish, write_group};
use core_states::{Act, Actor, Clock, CoreAnswer};
use std::alloc::Global;
use std::sync::Wait;
use turn_board::{Home, Nothing};

// Collects, where there is memory.
fn try_collect(
    me: u32,
    log: &mut CoreLog,
    clock: &mut Clock,
    actor: &mut Actor,
) -> Option<CoreAnswer>
    ensures { DoesOnGroupIf (collects (first_name me) (log_of log.old) clock.old actor.old)
        (log_of log.old) clock.old actor.old result (log_of log.new) clock.new actor.new }
{
    match collect(me, log, clock, actor) {
        Ok(answer) => Some(answer),
        Err(_) => None,
    }
}

// Notes the group as durable, where there is memory.
fn try_write(
    alloc: Global,
    moment: u64,
    me: u32,
    log: &mut CoreLog,
    actor: &mut Actor,
) -> Option<CoreAnswer>
    requires { log.old.durable ≤ number_end }
    ensures { DoesOnLogIf (writes moment (first_name me) (log_of log.old) actor.old)
        (log_of log.old) actor.old result (log_of log.new) actor.new }
{
    match write_group(alloc, moment, me, log, actor) {
        Ok(answer) => Some(answer),
        Err(_) => None,
    }
}

// Publishes the group, where there is memory.
fn try_publish(
    alloc: Global,
    me: u32,
    log: &mut CoreLog,
    clock: &mut Clock,
    actor: &mut Actor,
) -> Option<CoreAnswer>
    requires { clock.old.last < number_end }
    ensures { DoesOnGroupIf (publishes (first_name me) (log_of log.old) clock.old actor.old)
        (log_of log.old) clock.old actor.old result (log_of log.new) clock.new actor.new }
{
    match publish(alloc, me, log, clock, actor) {
        Ok(answer) => Some(answer),
        Err(_) => None,
    }
}

// Gives the group up, where there is memory.
fn try_fail(
    alloc: Global,
    before: u64,
    after: u64,
    me: u32,
    log: &mut CoreLog,
    clock: &mut Clock,
    actor: &mut Actor,
) -> Option<CoreAnswer>
    requires { log.old.durable ≤ number_end }
    ensures { DoesOnGroupIf (fails before after (first_name me) (log_of log.old) clock.old actor.old)
        (log_of log.old) clock.old actor.old result (log_of log.new) clock.new actor.new }
{
    match fail(alloc, before, after, me, log, clock, actor) {
        Ok(answer) => Some(answer),
        Err(_) => None,
    }
}

// Collects a group under the clock's turn, which is taken beside the log's and given back.
fn collect_group<R: Wait>(
    rt: &R,
    board: &Board,
    pass: &mut Holder,
    me: u32,
    paper: &mut Paper,
    actor: &mut Actor,
) -> Option<CoreAnswer>
    requires own { IsOf board.now pass.old × (turns pass.old ≡ 3) }
    requires ready { Ready pass.old × IsFirst (known pass.old) }
    requires held { (known pass.old).held ≡ log_held (log_of paper.old.log) }
    requires actor { own_actor me (known pass.old) ≡ actor.old }
    ensures went { Went me (done_if me acts.Collect result) actor.new (log_held (log_of paper.new.log))
        (known pass.old) (known pass.new) }
    ensures told { Told (turns pass.new) (known pass.new) }
    ensures ready { Ready pass.new }
    ensures keeps { SameSeat pass.old pass.new }
{
    let mut hand = board.take_clock(rt, pass, CLOCK);
    let answer = try_collect(me, &mut paper.log, &mut hand.clock, actor);
    let called = Called {
        me,
        act: Act::Collect,
        answer: &answer,
    };
    board.give(pass, CLOCK, Home::Clock(hand), &called);
    drop(called);
    answer
}

// Notes the group as durable, and publishes it under the clock's turn, which is taken beside the log's and given
// back.
fn publish_group<R: Wait>(
    rt: &R,
    alloc: Global,
    board: &Board,
    pass: &mut Holder,
    me: u32,
    moment: u64,
    paper: &mut Paper,
    actor: &mut Actor,
) -> (Option<CoreAnswer>, Option<CoreAnswer>)
    requires own { IsOf board.now pass.old × (turns pass.old ≡ 3) }
    requires ready { Ready pass.old × IsFirst (known pass.old) }
    requires held { (known pass.old).held ≡ log_held (log_of paper.old.log) }
    requires actor { own_actor me (known pass.old) ≡ actor.old }
    requires told { Told (turns pass.old) (known pass.old) }
    ensures went { Went me (done_if me (acts.WriteGroup moment) result.0 ++ done_if me acts.Publish result.1)
        actor.new (log_held (log_of paper.new.log)) (known pass.old) (known pass.new) }
    ensures told { Told (turns pass.new) (known pass.new) }
    ensures ready { Ready pass.new }
    ensures keeps { SameSeat pass.old pass.new }
{
    let Some(wrote) = try_write(alloc, moment, me, &mut paper.log, actor) else {
        return (None, None);
    };
    let mut hand = board.take_clock(rt, pass, CLOCK);
    let published = try_publish(alloc, me, &mut paper.log, &mut hand.clock, actor);
    let written = Written {
        me,
        moment,
        wrote: &wrote,
        published: &published,
    };
    board.give(pass, CLOCK, Home::Clock(hand), &written);
    (Some(wrote), published)
}

// Gives the group up under the clock's turn, which is taken beside the log's and given back.
fn fail_group<R: Wait>(
    rt: &R,
    alloc: Global,
    board: &Board,
    pass: &mut Holder,
    me: u32,
    before: u64,
    after: u64,
    paper: &mut Paper,
    actor: &mut Actor,
) -> Option<CoreAnswer>
    requires own { IsOf board.now pass.old × (turns pass.old ≡ 3) }
    requires ready { Ready pass.old × IsFirst (known pass.old) }
    requires held { (known pass.old).held ≡ log_held (log_of paper.old.log) }
    requires actor { own_actor me (known pass.old) ≡ actor.old }
    requires told { Told (turns pass.old) (known pass.old) }
    ensures went { Went me (done_if me (acts.Fail before after) result) actor.new (log_held (log_of paper.new.log))
        (known pass.old) (known pass.new) }
    ensures told { Told (turns pass.new) (known pass.new) }
    ensures ready { Ready pass.new }
    ensures keeps { SameSeat pass.old pass.new }
{
    let mut hand = board.take_clock(rt, pass, CLOCK);
    let answer = try_fail(
        alloc,
        before,
        after,
        me,
        &mut paper.log,
        &mut hand.clock,
        actor,
    );
    let called = Called {
        me,
        act: Act::Fail { before, after },
        answer: &answer,
    };
    board.give(pass, CLOCK, Home::Clock(hand), &called);
    drop(called);
    answer
}

// Ends the group as the disk answered.
fn end_group<R: Wait>(
    rt: &R,
    alloc: Global,
    board: &Board,
    pass: &mut Holder,
    me: u32,
    append: Append,
    paper: &mut Paper,
    actor: &mut Actor,
) -> (Option<CoreAnswer>, Option<CoreAnswer>)
    requires own { IsOf board.now pass.old × (turns pass.old ≡ 3) }
    requires ready { Ready pass.old × IsFirst (known pass.old) }
    requires held { (known pass.old).held ≡ log_held (log_of paper.old.log) }
    requires actor { own_actor me (known pass.old) ≡ actor.old }
    requires told { Told (turns pass.old) (known pass.old) }
    ensures went { Went me (ended_by me append result.0 result.1) actor.new (log_held (log_of paper.new.log))
        (known pass.old) (known pass.new) }
    ensures told { Told (turns pass.new) (known pass.new) }
    ensures ready { Ready pass.new }
    ensures keeps { SameSeat pass.old pass.new }
{
    match append {
        Append::Durable { moment } => {
            publish_group(rt, alloc, board, pass, me, moment, paper, actor)
        }
        Append::Faulted { before, after } => {
            let failed = fail_group(rt, alloc, board, pass, me, before, after, paper, actor);
            (None, failed)
        }
    }
}

// What a leader does while it holds the log's turn.
fn lead_under_log<R: Wait>(
    rt: &R,
    alloc: Global,
    board: &Board,
    pass: &mut Holder,
    me: u32,
    append: Append,
    paper: &mut Paper,
    actor: &mut Actor,
) -> Led
    requires own { IsOf board.now pass.old × (turns pass.old ≡ 3) }
    requires ready { Ready pass.old × IsFirst (known pass.old) }
    requires held { (known pass.old).held ≡ log_held (log_of paper.old.log) }
    requires actor { own_actor me (known pass.old) ≡ actor.old }
    ensures went { Went me (led_by me append result) actor.new (log_held (log_of paper.new.log))
        (known pass.old) (known pass.new) }
    ensures told { Told (turns pass.new) (known pass.new) }
    ensures ready { Ready pass.new }
    ensures keeps { SameSeat pass.old pass.new }
{
    let collected = collect_group(rt, board, pass, me, paper, actor);
    let (wrote, ended) = if matches!(&collected, Some(CoreAnswer::Collected { members: _ })) {
        end_group(rt, alloc, board, pass, me, append, paper, actor)
    } else {
        (None, None)
    };
    Led {
        collected,
        wrote,
        ended,
    }
}

// The disk's clock has come to the moment of the last append.
fn has_come(paper: &mut Paper)
    ensures log { paper.new.log ≡ paper.old.log }
    ensures in_time { paper.new.log.moment ≤ paper.new.time }
{
    if paper.time < paper.log.moment {
        paper.time = paper.log.moment;
    }
}

// Gives the log's turn back, with no event more.
fn give_log(board: &Board, pass: &mut Holder, paper: Paper)
    requires own { IsOf board.now pass.old × (turns pass.old ≡ 3) }
    requires ready { Ready pass.old }
    requires held { (known pass.old).held ≡ log_held (log_of paper.log) }
    ensures given { known pass.new ≡ giving [] (known pass.old) }
    ensures told { Told (turns pass.new) (known pass.new) }
    ensures ready { Ready pass.new }
    ensures keeps { SameSeat pass.old pass.new }
{
    let mut paper = paper;
    has_come(&mut paper);
    board.give(pass, LOG, Home::Log(paper), &Nothing)
}

/// Leads a commit by an actor of the first pass: takes the log's turn, and under the clock's collects a group; where
/// there is one, publishes it or gives it up, as the disk answers the append, under the clock's turn again; and gives
/// the log's back. The clock's turn is free while the group is appended.
///
/// The pass has noted what the actor did, event by event, with the core's answers. Where there is no memory for an
/// event it is not done: the actor then holds the log part still, and may go on with the group later.
///
/// Nothing here says that the waits end. Time: one step for each byte of the group.
pub fn lead<R: Wait>(
    rt: &R,
    alloc: Global,
    board: &Board,
    pass: &mut Holder,
    me: u32,
    append: Append,
    actor: &mut Actor,
) -> Led
    requires own { IsOf board.now pass.old × (turns pass.old ≡ 3) }
    requires ready { Ready pass.old × IsFirst (known pass.old) }
    requires free { (known pass.old).held ≡ [] }
    requires actor { own_actor me (known pass.old) ≡ actor.old }
    ensures led { Went me (led_by me append result) actor.new [] (known pass.old) (known pass.new) }
    ensures told { Told (turns pass.new) (known pass.new) }
    ensures ready { Ready pass.new }
    ensures keeps { SameSeat pass.old pass.new }
{
    let mut paper = board.take_log(rt, pass, LOG);
    let led = lead_under_log(rt, alloc, board, pass, me, append, &mut paper, actor);
    give_log(board, pass, paper);
    led
}
