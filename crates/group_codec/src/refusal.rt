//! Why a group is refused.

ghost use Rattle.std.specs.Prelude.{◌≡◌};

use graph_model::NoMemory;
use std::alloc::AllocError;

/// Why a group is refused.
#[derive(Clone, Copy, Debug, PartialEq, Eq)]
pub enum GroupRefusal {
    /// Memory ran out.
    NoMemory,
    /// The group is not of the grammar, or breaks a rule of records.
    Bad,
}

impl From<NoMemory> for GroupRefusal {
    ghost use Rattle.group_codec.specs.declared.refusal.GroupRefusal.TheVariants as refusal;

    ghost from_gives = { λ _ e. e ≡ refusal.NoMemory };

    fn from(_want: NoMemory) -> GroupRefusal {
        GroupRefusal::NoMemory
    }
}
