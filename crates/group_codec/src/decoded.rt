//! What decoding a log answers.

ghost use Rattle.std.specs.Prelude.{◌≡◌};

use graph_model::{NoMemory, Records};

/// A log that was decoded.
#[derive(Drop)]
pub struct Decoded {
    /// The records of all its groups, in order.
    pub records: Records,
    /// The place behind the gate after the last group. What follows it was not read.
    pub durable: u64,
}

/// Why a log was not decoded.
#[derive(Clone, Copy, Debug, PartialEq, Eq)]
pub enum CodecRefusal {
    /// A group is not of the grammar or breaks a rule of records. It is the first such: `group` is its
    /// number, from 1, and `at` the place of its length. A log that does not begin as one is bad at 0, 0.
    BadGroup { at: u64, group: u64 },
    /// Memory ran out.
    NoMemory,
}

impl CodecRefusal {
    ghost use Rattle.group_codec.specs.Log.{number_of_refusal};

    /// The number of the refusal: 1 for a bad group, 2 for want of memory.
    pub fn number(self) -> u8
        ensures { result ≡ number_of_refusal self }
    {
        match self {
            CodecRefusal::BadGroup { .. } => 1,
            CodecRefusal::NoMemory => 2,
        }
    }
}

impl From<NoMemory> for CodecRefusal {
    ghost use Rattle.group_codec.specs.declared.decoded.CodecRefusal.TheVariants as refusal;

    ghost from_gives = { λ _ e. e ≡ refusal.NoMemory };

    fn from(_want: NoMemory) -> CodecRefusal {
        CodecRefusal::NoMemory
    }
}
