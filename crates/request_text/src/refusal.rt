//! Why a text is no script.

ghost use Rattle.std.specs.Prelude.{◌≡◌};
ghost use Rattle.request_text.specs.declared.refusal.LineRefusal.TheVariants.{NoMemory as line_memory};
ghost use Rattle.request_text.specs.declared.refusal.TextRefusal.TheVariants.{NoMemory as text_memory};
ghost use Rattle.request_text.specs.Reading.{at_line, number_of_refusal};

use graph_model::NoMemory;

/// Why a text was not read as a script. Nothing is kept of what was read before the refusal.
#[derive(Clone, Copy, Debug, PartialEq, Eq)]
pub enum TextRefusal {
    /// Number 1: this line is the first bad one. Lines and columns count from 1, columns in bytes.
    BadLine { line: u64, column: u32 },
    /// Number 2: memory ran out.
    NoMemory,
}

impl TextRefusal {
    /// The number of the refusal: 1 for a bad line, 2 for want of memory.
    pub fn number(self) -> u8
        ensures { result ≡ number_of_refusal self }
    {
        match self {
            TextRefusal::BadLine { .. } => 1,
            TextRefusal::NoMemory => 2,
        }
    }
}

impl From<NoMemory> for TextRefusal {
    ghost from_gives = { λ _ e. e ≡ text_memory };

    fn from(_error: NoMemory) -> TextRefusal {
        TextRefusal::NoMemory
    }
}

/// Why a line was not read as a request of a session.
#[derive(Clone, Copy, Debug, PartialEq, Eq)]
pub enum LineRefusal {
    /// The column of the first byte that is bad, from 1.
    Column(u32),
    /// Memory ran out.
    NoMemory,
}

impl LineRefusal {
    /// The refusal of the text whose first bad line is this one, with this number.
    pub fn at(self, line: u64) -> TextRefusal
        ensures { result ≡ at_line line self }
    {
        match self {
            LineRefusal::Column(column) => TextRefusal::BadLine { line, column },
            LineRefusal::NoMemory => TextRefusal::NoMemory,
        }
    }
}

impl From<NoMemory> for LineRefusal {
    ghost from_gives = { λ _ e. e ≡ line_memory };

    fn from(_error: NoMemory) -> LineRefusal {
        LineRefusal::NoMemory
    }
}
