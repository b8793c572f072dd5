//! The queue of members.

ghost use Rattle.std.specs.Prelude.{◌≡◌, ◌+◌, ◌<◌, ◌≤◌, [], ◌∷◌, ◌++◌, length, take, drop, OnOk};
ghost use Rattle.graph_model.specs.Records.{group_most};

use graph_model::{GROUP_MOST, NoMemory};
use group_commit::{Group, Member};
use std::alloc::Global;
use std::collections::VecDeque;
use std::marker::Model;

/// The members that wait to be collected, the first one first, and room for some more.
#[derive(Drop)]
pub struct Queue {
    members: VecDeque<Member>,
}

impl Model for Queue {
    ghost use Rattle.commit_queue.specs.Waiting.{Waiting};
    ghost use Rattle.commit_queue.specs.Shown.{waiting};

    ghost Value = { Waiting };

    ghost view = { waiting };
}

impl Queue {
    /// Nobody waits, and there is no room. It takes no memory.
    pub fn new(alloc: Global) -> Queue
        ensures { result.members ≡ [] }
    {
        Queue {
            members: VecDeque::new(alloc),
        }
    }

    /// The number of members that wait.
    pub fn len(&self) -> usize
        ensures { result ≡ length self.now.members }
    {
        self.members.len()
    }

    /// Makes room for this many members more. After NoMemory the same members wait. Time: where there is no
    /// room, one step for each member that waits.
    pub fn reserve(&mut self, more: usize) -> Result<(), NoMemory>
        ensures members { self.new.members ≡ self.old.members }
        ensures room { OnOk result (length self.new.members + more ≤ self.new.room) }
        ensures keeps { self.old.room ≤ self.new.room }
    {
        self.members.reserve(more)?;
        Ok(())
    }

    /// Puts a member at the end. It takes no memory. Time: constant.
    pub fn push(&mut self, m: Member)
        requires { length self.old.members < self.old.room }
        ensures { self.new ≡ record self.old { members = self.old.members ++ m ∷ [] } }
    {
        self.members.push_back_reserved(m);
    }

    /// Takes the first 64 members off, or all where there are fewer, in their order. It takes no memory. Time: one
    /// step for each member that it gives.
    pub fn collect(&mut self) -> Group
        ensures group { result ≡ take group_most self.old.members }
        ensures rest { self.new ≡ record self.old { members = drop group_most self.old.members } }
    {
        let mut group = Group::new();
        self.collect_into(&mut group);
        group
    }

    /// The same into an empty group, so that no group is copied.
    pub fn collect_into(&mut self, group: &mut Group)
        requires { group.old ≡ [] }
        ensures group { group.new ≡ take group_most self.old.members }
        ensures rest { self.new ≡ record self.old { members = drop group_most self.old.members } }
    {
        while group.len() < GROUP_MOST {
            let Some(member) = self.members.pop_front() else {
                return;
            };
            group.push(member);
        }
    }
}
