//! What every form of an edge log promises.

ghost use Rattle.std.specs.Prelude.{◌≡◌, ℕ, ◌+◌, ◌<◌, ◌≤◌, ◌↔◌, ◌++◌, [], List, length, None, Ok, Err, IfOk, IfSome, IsSome, OnOk, OnErr, IsSomeAnd, IsTrue, is_some, ◌==◌, IsPermutation, if◌then◌else◌};
ghost use Rattle.std.specs.List.{list_any};
ghost use Rattle.graph_model.specs.Change.{edge_size};
ghost use Rattle.graph_model.specs.Records.{list_most};
ghost use Rattle.stamps.specs.Stamps.{Txn};
ghost use Rattle.stamps.specs.declared.stamp.Stamp.TheVariants.{Never};
ghost use Rattle.edge_log.specs.Entries.{sizes, visible, shown, has_entry_of};
ghost use Rattle.edge_log.specs.Places.{newest_place, entry_at, IsPlaceIn};
ghost use Rattle.edge_log.specs.Contents.{LogContent, Fits, HasTailOf, empty_content, with_appended, with_ended, with_converted, with_undone, with_kept};
ghost use Rattle.edge_log.specs.Parts.{IsPart};
ghost use Rattle.edge_log.specs.Rooms.{Block, AreApart, AreAmong, TakesNew, KeepsLogs, KeepsOlds};

use crate::{LogRefusal, Part, Place};
use graph_model::{NoMemory, Payload};
use std::alloc::Global;

/// The edges of one vertex under one label, as entries that are only appended.
///
/// A log lies in a room, and so does an `Old`, which is what was replaced or retired and can still be
/// scanned. Their contents are contents in that room: every call wants the log or the Old that it is
/// given to stand in it, and what a call changes leaves all those in other blocks as they were.
///
/// No call but `start`, `prepare` and `copy_keeping` takes memory. `prepare` makes room for one entry and for
/// one end stamp, since a log notes which entries were ended privately: so `convert`, `undo` and `has_entry_of`
/// go over what the transaction did in this log alone, however long the log is.
pub trait EdgeLog: Sized {
    /// Where logs of this form lie.
    type Room;

    /// A log that takes no further entry.
    type Old;

    /// The entries, how many are committed, and the epoch of the last commit.
    ghost content: { Self → Self.Room → LogContent };

    /// The same of an Old.
    ghost old_content: { Self.Old → Self.Room → LogContent };

    /// The log is one of the room's.
    ghost stands: { Self → Self.Room → Type 0 };

    /// The Old is one of the room's.
    ghost old_stands: { Self.Old → Self.Room → Type 0 };

    /// The blocks in which the log lies.
    ghost footprint: { Self → List Block };

    /// The blocks in which the Old lies.
    ghost old_footprint: { Self.Old → List Block };

    /// All blocks that are out of the room.
    ghost blocks_out: { Self.Room → List Block };

    /// The limit on the sum of the entries' sizes.
    ghost limit: { Self → ℕ };

    /// How large an entry may be for which there is room.
    ghost spare: { Self → Self.Room → ℕ };

    /// There is room to note one more end stamp.
    ghost may_end: { Self → Type 0 };

    /// The transactions whose private stamps logs of this form can keep.
    ghost keeps_number: { ℕ → Type 0 };

    /// The epochs that logs of this form can keep.
    ghost keeps_epoch: { ℕ → Type 0 };

    /// An empty log of the vertex `v` and the label `l`, with room for one entry of this size and for one end stamp.
    /// The sizes of its entries are to be at most `most` together.
    ///
    /// `NoMemory`, and `LogFull` where the one entry is too large: the room is as it was.
    fn start(
        alloc: Global,
        room: &mut Self::Room,
        v: u64,
        l: u16,
        size: u64,
        most: u64,
    ) -> Result<Self, LogRefusal>
        requires { most ≤ list_most }
        ensures full { (result ≡ Err LogRefusal.LogFull) ↔ (most < size) }
        ensures stands { IfOk result (λ log. stands log room.new) }
        ensures empty { IfOk result (λ log. content log room.new ≡ empty_content) }
        ensures limit { IfOk result (λ log. Self.limit log ≡ most) }
        ensures has_room { IfOk result (λ log. size ≤ spare log room.new) }
        ensures may_end { IfOk result (λ log. may_end log) }
        ensures blocks { IfOk result (λ log. TakesNew (blocks_out room.old) (blocks_out room.new) (footprint log)) }
        ensures unchanged { OnErr result (room.new ≡ room.old) }
        ensures keeps_logs { KeepsLogs stands footprint content spare [] room.old room.new }
        ensures keeps_olds { KeepsOlds old_stands old_footprint old_content [] room.old room.new };

    /// Makes room for one entry of this size, which may be 0, and for one end stamp. Where the log moves, what
    /// it was is handed out.
    ///
    /// `NoMemory`, and `LogFull` where the entry passes the limit: the log and the room are as they were, and so
    /// is the room that was made before.
    fn prepare(&mut self, room: &mut Self::Room, size: u64) -> Result<Option<Self::Old>, LogRefusal>
        requires { stands self.old room.old }
        ensures full { (result ≡ Err LogRefusal.LogFull)
            ↔ (limit self.old < sizes (content self.old room.old).entries + size) }
        ensures stands { stands self.new room.new }
        ensures content { content self.new room.new ≡ content self.old room.old }
        ensures limit { limit self.new ≡ limit self.old }
        ensures has_room { OnOk result (size ≤ spare self.new room.new) }
        ensures may_end { OnOk result (may_end self.new) }

        // Where the log stays, so do its blocks. Where it moves, it lies in new ones, apart from the old.
        ensures stayed { result ≡ Ok None
            → (footprint self.new ≡ footprint self.old) × (blocks_out room.new ≡ blocks_out room.old) }
        ensures moved { IfOk result (λ moved. IfSome moved (λ old.
            old_stands old room.new
            × (old_content old room.new ≡ content self.old room.old)
            × (old_footprint old ≡ footprint self.old)
            × AreApart (old_footprint old) (footprint self.new))) }
        ensures blocks { IfOk result (λ moved. IfSome moved (λ _.
            TakesNew (blocks_out room.old) (blocks_out room.new) (footprint self.new))) }

        ensures unchanged { OnErr result (
            (room.new ≡ room.old)
            × (footprint self.new ≡ footprint self.old)
            × (spare self.old room.old ≤ spare self.new room.new)
            × (may_end self.old → may_end self.new)) }
        ensures keeps_logs { KeepsLogs stands footprint content spare (footprint self.old) room.old room.new }
        ensures keeps_olds { KeepsOlds old_stands old_footprint old_content (footprint self.old) room.old room.new };

    /// Appends an edge that is private to the transaction `tid`. Room for an end stamp stays.
    fn append(&mut self, room: &mut Self::Room, tid: u64, d: u64, p: &Payload)
        requires stands { stands self.old room.old }
        requires has_room { edge_size p.now ≤ spare self.old room.old }
        requires number { keeps_number tid }
        ensures stands { stands self.new room.new }
        ensures appended { content self.new room.new ≡ with_appended tid d p.now (content self.old room.old) }
        ensures limit { limit self.new ≡ limit self.old }
        ensures may_end { may_end self.old → may_end self.new }
        ensures blocks { (footprint self.new ≡ footprint self.old) × (blocks_out room.new ≡ blocks_out room.old) }
        ensures keeps_logs { KeepsLogs stands footprint content spare (footprint self.old) room.old room.new }
        ensures keeps_olds { KeepsOlds old_stands old_footprint old_content (footprint self.old) room.old room.new };

    /// The place of the newest entry of `d` that the transaction `tid` sees at the epoch `read`; none
    /// exactly where it sees no edge to `d`.
    fn find(&self, room: &Self::Room, d: u64, read: u64, tid: u64) -> Option<u32>
        requires { stands self.now room.now }
        ensures place { result ≡ newest_place (content self.now room.now).entries d read (Txn tid) }
        ensures found { IfSome result (λ place.
            IsSomeAnd (entry_at (content self.now room.now).entries place) (λ entry.
            IsTrue (visible entry read (Txn tid)) × (entry.d ≡ d))) }
        ensures shown { is_some result
            ≡ list_any (λ pair. pair.d == d) (shown (content self.now room.now).entries read (Txn tid)) };

    /// A copy of the payload of the entry at a place, as one that `find` answered. Time: one step for each byte,
    /// and at most one for each newer entry; a log may keep an index that takes it there at once.
    fn payload_at(&self, alloc: Global, room: &Self::Room, place: u32) -> Result<Payload, NoMemory>
        requires stands { stands self.now room.now }
        requires there { IsSome (entry_at (content self.now room.now).entries place) }
        ensures { IfOk result (λ p. IsSomeAnd (entry_at (content self.now room.now).entries place) (λ entry.
            p ≡ entry.p)) };

    /// Ends the entry at a place, privately to the transaction `tid`, which takes the room for one end stamp.
    /// Prepared room for an entry stays. Time: constant.
    fn end_entry(&mut self, room: &mut Self::Room, place: u32, tid: u64)
        requires stands { stands self.old room.old }
        requires live { IsSomeAnd (entry_at (content self.old room.old).entries place) (λ entry. entry.ended ≡ Never) }
        requires may_end { may_end self.old }
        requires number { keeps_number tid }
        ensures stands { stands self.new room.new }
        ensures ended { content self.new room.new ≡ with_ended place tid (content self.old room.old) }
        ensures limit { limit self.new ≡ limit self.old }
        ensures room { spare self.new room.new ≡ spare self.old room.old }
        ensures blocks { (footprint self.new ≡ footprint self.old) × (blocks_out room.new ≡ blocks_out room.old) }
        ensures keeps_logs { KeepsLogs stands footprint content spare (footprint self.old) room.old room.new }
        ensures keeps_olds { KeepsOlds old_stands old_footprint old_content (footprint self.old) room.old room.new };

    /// Whether an entry was made or ended by the transaction `tid`, which has not committed. Time: one
    /// step for each entry that is not committed, and for each that was ended privately.
    fn has_entry_of(&self, room: &Self::Room, tid: u64) -> bool
        requires { stands self.now room.now }
        ensures { result ≡ has_entry_of tid (content self.now room.now).entries };

    /// Commits what is private to the transaction `tid`, at this epoch. Time: what the transaction did in this
    /// log, one step for each entry that it appended or ended, however long the log is.
    fn convert(&mut self, room: &mut Self::Room, tid: u64, epoch: u64)
        requires stands { stands self.old room.old }
        requires tail { HasTailOf tid (content self.old room.old) }
        requires epoch { keeps_epoch epoch }
        ensures stands { stands self.new room.new }
        ensures converted { content self.new room.new ≡ with_converted tid epoch (content self.old room.old) }
        ensures limit { limit self.new ≡ limit self.old }
        ensures blocks { (footprint self.new ≡ footprint self.old) × (blocks_out room.new ≡ blocks_out room.old) }
        ensures keeps_logs { KeepsLogs stands footprint content spare (footprint self.old) room.old room.new }
        ensures keeps_olds { KeepsOlds old_stands old_footprint old_content (footprint self.old) room.old room.new };

    /// Gives up what is private to the transaction `tid`: cuts its tail off and takes its end stamps off
    /// the committed entries. Time: what the transaction did in this log, as that of `convert`.
    fn undo(&mut self, room: &mut Self::Room, tid: u64)
        requires stands { stands self.old room.old }
        requires tail { HasTailOf tid (content self.old room.old) }
        ensures stands { stands self.new room.new }
        ensures undone { content self.new room.new ≡ with_undone tid (content self.old room.old) }
        ensures limit { limit self.new ≡ limit self.old }
        ensures blocks { (footprint self.new ≡ footprint self.old) × (blocks_out room.new ≡ blocks_out room.old) }
        ensures keeps_logs { KeepsLogs stands footprint content spare (footprint self.old) room.old room.new }
        ensures keeps_olds { KeepsOlds old_stands old_footprint old_content (footprint self.old) room.old room.new };

    /// Where a scan begins: after the last committed entry, or, where it is the owner's own, after the tail.
    /// Time: constant.
    fn cursor(&self, own: bool) -> Place
        ensures place { (room : Self.Room) → stands self.now room → IsPlaceIn (content self.now room).entries result }
        ensures below { (room : Self.Room) → stands self.now room → result.below
            ≡ (if own then length (content self.now room).entries else (content self.now room).committed) };

    /// Takes a part of a scan from a place downwards into `out`, and answers where to go on; none where
    /// no entry is left. What `out` held is lost. Time: one step for each entry that it looks at, 64 at most,
    /// and each byte of their payloads, however far the place is from the log's ends.
    fn part(
        &self,
        room: &Self::Room,
        place: Place,
        read: u64,
        tid: u64,
        out: &mut Part,
    ) -> Option<Place>
        requires stands { stands self.now room.now }
        requires place { IsPlaceIn (content self.now room.now).entries place }
        ensures { IsPart (content self.now room.now).entries place.below result read (Txn tid) out.old out.new };

    /// A copy without the entries that no snapshot of an epoch from `horizon` on sees: those that ended at
    /// an epoch at most `horizon`. This log stays as it is. Time: one step for each entry and byte.
    ///
    /// `NoMemory`: the room is as it was.
    fn copy_keeping(&self, room: &mut Self::Room, horizon: u64) -> Result<Self, NoMemory>
        requires { stands self.now room.old }
        ensures stands { IfOk result (λ copy. stands copy room.new) }
        ensures kept { IfOk result (λ copy. content copy room.new ≡ with_kept horizon (content self.now room.old)) }
        ensures limit { IfOk result (λ copy. limit copy ≡ limit self.now) }
        ensures blocks { IfOk result (λ copy. TakesNew (blocks_out room.old) (blocks_out room.new) (footprint copy)) }
        ensures unchanged { OnErr result (room.new ≡ room.old) }
        ensures keeps_logs { KeepsLogs stands footprint content spare [] room.old room.new }
        ensures keeps_olds { KeepsOlds old_stands old_footprint old_content [] room.old room.new };

    /// The log as an Old, with the same content in the same blocks.
    fn retire(self) -> Self::Old
        ensures stands { (room : Self.Room) → stands self room → old_stands result room }
        ensures content { (room : Self.Room) → stands self room → old_content result room ≡ content self room }
        ensures blocks { old_footprint result ≡ footprint self };

    /// What `part` is of a log, of an Old.
    fn old_part(
        room: &Self::Room,
        old: &Self::Old,
        place: Place,
        read: u64,
        tid: u64,
        out: &mut Part,
    ) -> Option<Place>
        requires stands { old_stands old.now room.now }
        requires place { IsPlaceIn (old_content old.now room.now).entries place }
        ensures { IsPart (old_content old.now room.now).entries place.below result read (Txn tid) out.old out.new };

    /// Gives the blocks of an Old back to the room.
    fn release(room: &mut Self::Room, old: Self::Old)
        requires { old_stands old room.old }
        ensures given { IsPermutation (blocks_out room.old) (old_footprint old ++ blocks_out room.new) }
        ensures keeps_logs { KeepsLogs stands footprint content spare (old_footprint old) room.old room.new }
        ensures keeps_olds { KeepsOlds old_stands old_footprint old_content (old_footprint old) room.old room.new };

    /// A log in a room keeps within its limit, and what it has room for would too.
    ghost fits: { (log : Self) (room : Self.Room) → stands log room
        → Fits (limit log) (content log room) × (sizes (content log room).entries + spare log room ≤ limit log) };

    /// A log that stands in a room lies in blocks that are out of it.
    ghost lies_out: { (log : Self) (room : Self.Room) → stands log room
        → AreAmong (footprint log) (blocks_out room) };

    /// An Old that stands in a room lies in blocks that are out of it.
    ghost old_lies_out: { (old : Self.Old) (room : Self.Room) → old_stands old room
        → AreAmong (old_footprint old) (blocks_out room) };
}
