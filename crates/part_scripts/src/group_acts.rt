//! The acts of an actor on the log part and the clock, as the core's events on them. There is no part for the log: what
//! is asked of it is asked of the core's.

ghost use Rattle.std.specs.Prelude.{◌≡◌};
ghost use Rattle.core_events.specs.CoreLogs.{log_of};
ghost use Rattle.core_states.specs.declared.event.Act.TheVariants as act;
ghost use Rattle.core_states.specs.States.{first_name};
ghost use Rattle.clock_facts.specs.Known.{KnowsActor};
ghost use Rattle.part_scripts.specs.Clocks.{DidOnGroup};

use crate::members::group_of;
use core_events::CoreLog;
use core_states::{Act, Actor, CoreAnswer};
use epoch_clock::EpochPart;
use graph_model::NoMemory;
use std::alloc::Global;

/// Does an act of an actor on the log part and the clock, and tells what it answers; none where the actor may not do it,
/// and then nothing is done.
pub fn act_on_group(
    alloc: Global,
    part: &mut EpochPart,
    log: &CoreLog,
    me: u32,
    actor: &Actor,
    act: &Act,
) -> Result<Option<CoreAnswer>, NoMemory>
    requires { KnowsActor part.old.clock actor.now }
    ensures { DidOnGroup act.now (first_name me) (log_of log.now) actor.now part.old.clock result part.new.clock }
{
    match act {
        Act::Collect => collect(part, log, me, actor),
        Act::Publish => publish(alloc, part, log, me, actor),
        Act::Fail { before, after } => fail(alloc, part, log, me, actor, *before, *after),
        _ => Ok(None),
    }
}

// Collects the first records that wait.
fn collect(
    part: &mut EpochPart,
    log: &CoreLog,
    me: u32,
    actor: &Actor,
) -> Result<Option<CoreAnswer>, NoMemory>
    ensures { DidOnGroup act.Collect (first_name me) (log_of log.now) actor.now part.old.clock result part.new.clock }
{
    let _me = me;
    let _actor = actor;
    if log.holder.is_some() || part.waiting() == 0 {
        return Ok(None);
    }
    let group = part.collect();
    Ok(Some(CoreAnswer::Collected {
        members: group.len() as u32,
    }))
}

// Publishes the group that the actor has written.
fn publish(
    alloc: Global,
    part: &mut EpochPart,
    log: &CoreLog,
    me: u32,
    actor: &Actor,
) -> Result<Option<CoreAnswer>, NoMemory>
    requires { KnowsActor part.old.clock actor.now }
    ensures { DidOnGroup act.Publish (first_name me) (log_of log.now) actor.now part.old.clock result part.new.clock }
{
    if log.holder != Some(me) || !actor.written {
        return Ok(None);
    }
    let Some(group) = group_of(alloc, &actor.group)? else {
        return Ok(None);
    };
    if group.is_empty() {
        return Ok(None);
    }
    let epoch = part.publish(group, log.moment);
    Ok(Some(CoreAnswer::Published { epoch }))
}

// Gives up the group that the actor has collected.
fn fail(
    alloc: Global,
    part: &mut EpochPart,
    log: &CoreLog,
    me: u32,
    actor: &Actor,
    before: u64,
    after: u64,
) -> Result<Option<CoreAnswer>, NoMemory>
    requires { KnowsActor part.old.clock actor.now }
    ensures { DidOnGroup (act.Fail before after) (first_name me) (log_of log.now) actor.now
        part.old.clock result part.new.clock }
{
    if log.holder != Some(me) || actor.written || before >= after || log.greatest > before {
        return Ok(None);
    }
    let Some(group) = group_of(alloc, &actor.group)? else {
        return Ok(None);
    };
    part.fail(group, before, after);
    Ok(Some(CoreAnswer::Done))
}
