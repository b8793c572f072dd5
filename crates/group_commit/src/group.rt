//! The members of a group.

ghost use Rattle.std.specs.Prelude.{◌≡◌, ◌==◌, ◌<◌, ◌≤◌, ◌↔◌, [], ◌∷◌, ◌++◌, length, reverse, slice_get, IsSome};
ghost use Rattle.graph_model.specs.Records.{group_most};
ghost use Rattle.std.specs.Option.{option_copied, option_to_list};

use crate::Member;
use arrayvec::ArrayVec;
use graph_model::GROUP_MOST;
use std::marker::Model;

/// At most 64 members in order, which lie in the group itself: it takes no memory. Contracts see the list of them.
#[derive(Drop)]
pub struct Group {
    members: ArrayVec<Option<Member>, GROUP_MOST>,
}

impl Model for Group {
    ghost use Rattle.std.specs.Prelude.{◌≡◌, List, length};
    ghost use Rattle.group_commit.specs.Encoded.{Encoded};
    ghost use Rattle.group_commit.specs.Members.{members_of};

    ghost Value = { List Encoded };

    ghost view = { λ g. members_of g.members.items };

    ghost invariant = { λ g. length (members_of g.members.items) ≡ length g.members.items };
}

impl Group {
    /// No member.
    pub fn new() -> Group
        ensures { result ≡ [] }
    {
        Group {
            members: ArrayVec::new(),
        }
    }

    /// Appends a member.
    pub fn push(&mut self, m: Member)
        requires { length self.old < group_most }
        ensures { self.new ≡ self.old ++ m ∷ [] }
    {
        self.members.push(Some(m));
    }

    /// The number of members.
    pub fn len(&self) -> usize
        ensures len { result ≡ length self.now }
        ensures within { result ≤ group_most }
    {
        self.members.len()
    }

    /// Whether there is no member.
    pub fn is_empty(&self) -> bool
        ensures { result ≡ (length self.now == 0) }
    {
        self.members.is_empty()
    }

    /// The member at a place from 0 on; none past the last.
    pub fn get(&self, i: usize) -> Option<&Member>
        ensures { option_copied result ≡ slice_get self.now i }
    {
        match place(self.members.as_slice(), i) {
            Some(member) => member.as_ref(),
            None => None,
        }
    }

    /// Turns the members round: the last one is the first. Time: one step for each member.
    pub fn reverse(&mut self)
        ensures { self.new ≡ reverse self.old }
    {
        self.members.as_mut_slice().reverse();
    }

    /// Takes the last member out; none from an empty group. Time: constant.
    pub fn pop(&mut self) -> Option<Member>
        ensures members { self.old ≡ self.new ++ option_to_list result }
        ensures variant { IsSome result ↔ (0 < length self.old) }
    {
        self.members.pop()?
    }
}

/// What stands at a place.
fn place(members: &[Option<Member>], i: usize) -> Option<&Option<Member>>
    ensures { option_copied result ≡ slice_get members.now i }
{
    members.get(i)
}
