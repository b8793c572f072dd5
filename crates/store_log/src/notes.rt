//! What is noted of the log for the clauses alone. It has no bytes, and takes no time.

ghost use Rattle.std.specs.Prelude.{◌≡◌, ◌∷◌, ◌++◌, [], length};
ghost use Rattle.graph_wal.specs.Appends.{durable_group, tried};
ghost use Rattle.group_commit.specs.Members.{records_at};
ghost use Rattle.store_log.specs.Written.{Origin, Written, begun, more_durable, more_tried};

use group_commit::Group;
use std::marker::Model;
use std::mem;
use std::snapshot::Snapshot;

/// What is noted of a log. No value of it is read: it exists for the proofs, as plain data.
pub struct Note;

impl Model for Note {
    ghost use Rattle.store_log.specs.Written.{Written, nothing_written};

    ghost Value = { Written };

    ghost view = { λ _. nothing_written };
}

/// What is noted of a log, as clauses see it.
pub(crate) type Notes = Snapshot<Note>;

// The same bytes, which are none, with any other value. Only its clause says which one it is.
fn renoted(notes: Notes) -> Notes
    ghost noted: { Written }
    ensures { result.value ≡ noted }
{
    notes
}

// Notes that a log was opened.
pub(crate) fn first_notes() -> Notes
    ghost origin: { Origin }
    ensures { result.value ≡ begun origin }
{
    renoted(Snapshot::of(&Note))
}

// The notes with any other value, which is picked by a group.
fn renoted_by(notes: Notes, _epoch: u64, _group: &Group, _moment: u64) -> Notes
    ghost noted: { Written }
    ensures { result.value ≡ noted }
{
    renoted(notes)
}

// Notes that a group of this epoch is durable from a moment on.
pub(crate) fn note_durable(notes: &mut Notes, epoch: u64, group: &Group, moment: u64)
    ensures { notes.new.value ≡ more_durable (records_at epoch group.now) moment notes.old.value }
{
    let was = mem::replace(notes, Snapshot::of(&Note));
    *notes = renoted_by(was, epoch, group, moment);
}

// Notes that a group of this epoch was tried.
pub(crate) fn note_tried(notes: &mut Notes, epoch: u64, group: &Group)
    ensures { notes.new.value ≡ more_tried (records_at epoch group.now) notes.old.value }
{
    let was = mem::replace(notes, Snapshot::of(&Note));
    *notes = renoted_by(was, epoch, group, 0);
}
