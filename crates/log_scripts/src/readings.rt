//! All that readers see of a log, as bytes.

ghost use Rattle.std.specs.Prelude.{IfSome};
ghost use Rattle.edge_log.specs.Places.{IsPlaceIn};

use crate::script::DESTINATIONS;
use crate::steps::Writer;
use edge_log::{EdgeLog, Part, Place};
use graph_model::NoMemory;
use std::alloc::Global;

// The most parts that a scan of a log in these tests has.
const PARTS: u32 = 200;

/// A reader: its transaction, its epoch, and whether it begins at the log's end, as the transaction that
/// changes the log does.
#[derive(Clone, Copy, Debug)]
pub(crate) struct Reader {
    pub(crate) tid: u64,
    pub(crate) read: u64,
    pub(crate) own: bool,
}

/// The transaction that changes the log, and some that began when less of it was committed.
pub(crate) fn readers(writer: Writer) -> [Reader; 4] {
    let Writer { tid, read } = writer;
    let at = |read: u64| -> Reader {
        Reader {
            tid: 1 << 40,
            read,
            own: false,
        }
    };
    [
        Reader {
            tid,
            read,
            own: true,
        },
        at(read),
        at(read.saturating_sub(2)),
        at(read / 2),
    ]
}

/// What was seen, one thing after another.
#[derive(Drop)]
pub(crate) struct Notes {
    bytes: Vec<u8>,
}

impl Notes {
    pub(crate) fn new(alloc: Global) -> Notes {
        Notes {
            bytes: Vec::new(alloc),
        }
    }

    pub(crate) fn clear(&mut self) {
        self.bytes.clear();
    }

    pub(crate) fn as_slice(&self) -> &[u8] {
        self.bytes.as_slice()
    }

    fn number(&mut self, n: u64) -> Result<(), NoMemory> {
        self.bytes.extend_from_slice(&n.to_be_bytes())?;
        Ok(())
    }

    // A place; a number that no place has where there is none.
    fn place(&mut self, place: Option<Place>) -> Result<(), NoMemory> {
        match place {
            None => self.number(u64::MAX),
            Some(place) => {
                self.number(u64::from(place.below))?;
                self.number(u64::from(place.props))
            }
        }
    }

    // The edges of a part, with their payloads.
    fn part(&mut self, part: &Part) -> Result<(), NoMemory> {
        self.number(part.pairs() as u64)?;
        for i in 0..part.pairs() {
            if let (Some(d), Some(p)) = (part.d(i), part.p(i)) {
                self.number(d)?;
                self.number(p.len() as u64)?;
                self.bytes.extend_from_slice(p)?;
            }
        }
        Ok(())
    }
}

/// Notes each part of a scan from the newest entry down, and where each ends.
pub(crate) fn note_scan<L: EdgeLog>(
    room: &L::Room,
    log: &L,
    reader: Reader,
    part: &mut Part,
    notes: &mut Notes,
) -> Result<(), NoMemory>
    requires { L.stands log.now room.now }
{
    let mut place = Some(log.cursor(reader.own));
    notes.place(place)?;
    for _ in 0..PARTS {
        let Some(from) = place else {
            break;
        };
        place = log.part(room, from, reader.read, reader.tid, part);
        notes.part(part)?;
        notes.place(place)?;
    }
    Ok(())
}

/// Notes where each destination is found.
pub(crate) fn note_finds<L: EdgeLog>(
    room: &L::Room,
    log: &L,
    reader: Reader,
    notes: &mut Notes,
) -> Result<(), NoMemory>
    requires { L.stands log.now room.now }
{
    for d in 0..DESTINATIONS {
        match log.find(room, d, reader.read, reader.tid) {
            None => notes.number(u64::MAX)?,
            Some(place) => notes.number(u64::from(place))?,
        }
    }
    notes.number(u64::from(log.has_entry_of(room, reader.tid)))
}

/// Notes what each of these readers sees.
pub(crate) fn note_all<L: EdgeLog>(
    room: &L::Room,
    log: &L,
    readers: &[Reader],
    part: &mut Part,
    notes: &mut Notes,
) -> Result<(), NoMemory>
    requires { L.stands log.now room.now }
{
    for reader in readers {
        note_scan(room, log, *reader, part, notes)?;
        note_finds(room, log, *reader, notes)?;
    }
    Ok(())
}

/// Notes what each of these readers sees of an Old, from a place of it down.
pub(crate) fn note_old<L: EdgeLog>(
    room: &L::Room,
    old: &L::Old,
    from: Place,
    readers: &[Reader],
    part: &mut Part,
    notes: &mut Notes,
) -> Result<(), NoMemory>
    requires stands { L.old_stands old.now room.now }
    requires place { IsPlaceIn (L.old_content old.now room.now).entries from }
{
    for reader in readers {
        note_old_scan::<L>(room, old, from, *reader, part, notes)?;
    }
    Ok(())
}

// Notes each part of a scan of an Old.
fn note_old_scan<L: EdgeLog>(
    room: &L::Room,
    old: &L::Old,
    from: Place,
    reader: Reader,
    part: &mut Part,
    notes: &mut Notes,
) -> Result<(), NoMemory>
    requires stands { L.old_stands old.now room.now }
    requires place { IsPlaceIn (L.old_content old.now room.now).entries from }
{
    let mut place = Some(from);
    for _ in 0..PARTS {
        let Some(from) = place else {
            break;
        };
        place = L::old_part(room, old, from, reader.read, reader.tid, part);
        notes.part(part)?;
        notes.place(place)?;
    }
    Ok(())
}
