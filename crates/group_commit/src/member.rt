//! A transaction that waits to be written.

ghost use Rattle.std.specs.Prelude.{◌≡◌};
ghost use Rattle.group_commit.specs.Encoded.{Spells};

use graph_model::{Bytes, Record};
use std::marker::Model;

/// The record of a transaction whose epoch is not set yet, and its changes as the log spells them. So a group
/// is written without encoding anything, and without taking memory.
#[derive(Drop)]
pub struct Member {
    draft: Record,
    bytes: Bytes,
}

impl Model for Member {
    ghost use Rattle.group_commit.specs.Encoded.{Encoded, Spells};

    ghost Value = { Encoded };

    ghost view = { λ m. record { draft = m.draft; bytes = m.bytes } };

    ghost invariant = { λ m. Spells m.bytes m.draft.changes };
}

impl Member {
    /// A member of this record, whose changes are spelled so.
    pub fn new(r: Record, bytes: Bytes) -> Member
        requires { Spells bytes r.changes }
        ensures { result ≡ record { draft = r; bytes = bytes } }
    {
        Member { draft: r, bytes }
    }

    /// The record. Its epoch says nothing.
    pub fn record(&self) -> &Record
        ensures { result.now ≡ self.now.draft }
    {
        &self.draft
    }

    /// The spelling of the record's changes.
    pub fn bytes(&self) -> &Bytes
        ensures bytes { result.now ≡ self.now.bytes }
        ensures spelled { Spells self.now.bytes self.now.draft.changes }
    {
        &self.bytes
    }

    /// The record.
    pub fn into_record(self) -> Record
        ensures { result ≡ self.draft }
    {
        self.draft
    }
}
