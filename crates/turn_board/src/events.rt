//! What the board is told by its users: what a value stands for, and which events were done on it.

ghost use Rattle.std.specs.Prelude.{List};
ghost use Rattle.turn_board.specs.Views.{Done, Shown, View};

/// What a value of a turn stands for.
pub trait ShowsPart {
    // The rows of a shard with its place, the clock, or the log part with the moment of its disk.
    ghost shown: { Self → Shown };
}

/// What was done since the turn was taken: the events, by what the pass that held it knows.
pub trait Happens {
    ghost events: { Self → View → List Done };
}

/// No event was done.
#[derive(Clone, Copy, Debug, PartialEq, Eq)]
pub struct Nothing;

impl Happens for Nothing {
    ghost use Rattle.std.specs.Prelude.{[]};

    ghost events = { λ _ _. [] };
}
