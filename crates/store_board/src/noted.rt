//! An event on the clock that leaves a hint.

use crate::hints::Hints;
use core_states::CoreAnswer;
use store_turns::{ClockCall, ClockHome, Session};

/// A call on the clock, after which the hints say how the clock stands.
#[derive(Drop)]
pub(crate) struct Noted<'a, C> {
    pub call: &'a C,
    pub hints: &'a Hints,
}

impl<'a, C: ClockCall> ClockCall for Noted<'a, C> {
    ghost acts = { λ x. C.acts x.call.now };

    ghost leaves = { λ x. C.leaves x.call.now };

    fn call(&self, home: &mut ClockHome, session: &mut Session) -> Option<CoreAnswer> {
        let answer = self.call.call(home, session);
        self.hints.note(home);
        answer
    }
}
