//! A disk over memory, which tells its bytes and images, and fails at chosen calls: a test aid.

ghost use Rattle.std.specs.Prelude.{◌≡◌, ◌⊎◌, ◌↔◌, ℕ, List, ◌+◌, ◌<◌, ◌≤◌, ◌^◌, [], length, take, Some, IsErr, IfOk, OnOk, OnErr, IsTrue, vec_len};
ghost use Rattle.io_edges.specs.Faults.{one_more, NeverFalls, Rose};
ghost use Rattle.disk_model.specs.Calls.{no_calls};
ghost use Rattle.disk_model.specs.Images.{overwritten, Torn, CutShort, Follows, Only, NoneNew, Passes, Stays, ToldBy, ReadsAt};
ghost use Rattle.disk_model.specs.Steps.{Wrote, Other, read_after};
ghost use Rattle.disk_model.specs.Past.{stepped, recorded, IsPaced};
ghost use Rattle.disk_model.specs.Memory.{bytes_of, ImageAt, IsListed, IsRefused, WriteFails, PassesRoom, after_call, after_fault, after_step, after_failed, steps_to, fill_of, chosen};

use crate::calls::{Calls, raise};
use crate::event::Event;
use crate::history::History;
use crate::replay::overwrite;
use crate::{Bytes, Disk, Fail, Failed, Kind, NoMemory};
use std::alloc::Global;
use std::marker::Model;

/// A disk over memory, which it takes when it is made. It records its writes, cuts and syncs, so that it can give
/// an image of any moment. Contracts see its past, the moment, and the count of its calls.
#[derive(Drop)]
pub struct MemDisk {
    history: History,
    bytes: Vec<u8>,
    moment: u64,
    calls: Calls,
    failing: Vec<Fail>,
    faults: u64,
}

impl Model for MemDisk {
    ghost use Rattle.disk_model.specs.Past.{stepped, recorded, IsPaced};
    ghost use Rattle.disk_model.specs.Memory.{MemoryDisk};

    ghost Value = { MemoryDisk };

    ghost use Rattle.disk_model.specs.MemDisk.{disk_of, IsTrueToPast};

    ghost view = { disk_of };

    ghost invariant = { IsTrueToPast };
}

impl MemDisk {
    /// A disk with these bytes, firm, with room for so many recorded calls and so many bytes. Its calls that are
    /// listed fail.
    pub fn new(
        alloc: Global,
        bytes: Vec<u8>,
        calls: usize,
        room: usize,
        failing: Vec<Fail>,
    ) -> Result<MemDisk, NoMemory>
        requires { length bytes.items ≤ room }
        ensures { IfOk result (λ d. d ≡ record {
          past = record { first = bytes.items; steps = []; places = calls; room = room };
          moment = 0;
          calls = no_calls;
          failing = failing.items;
          faults = 0;
        }) }
    {
        let mut current = Vec::with_capacity(alloc, room)?;
        current.extend_from_slice(bytes.as_slice())?;
        Ok(MemDisk {
            history: History::new(alloc, bytes, calls, room)?,
            bytes: current,
            moment: 0,
            calls: Calls::none(),
            failing,
            faults: 0,
        })
    }

    /// What a read gives.
    pub fn bytes(&self) -> &[u8]
        ensures { result.now ≡ bytes_of self.now }
    {
        self.bytes.as_slice()
    }

    /// One image of a moment. Choice 0 keeps nothing that is pending, choice 1 all of it, and any other fills
    /// what is pending with the byte `choice mod 256`. Time: one step for each byte that was ever written.
    pub fn image(&self, alloc: Global, moment: u64, choice: u64) -> Result<Bytes, NoMemory>
        ensures image { IfOk result (λ c. ImageAt self.now moment c) }
        ensures chosen { IfOk result (λ c. c ≡ chosen self.now moment choice) }
    {
        let count = self.steps_to(moment);
        let replay = self.history.replay(alloc, count, fill_of(choice))?;
        if choice == 1 {
            return Ok(Bytes::from(replay.into_bytes()));
        }
        Ok(Bytes::from(replay.into_image()))
    }

    /// How many steps were done up to a moment: all, from the moment that stands now on.
    fn steps_to(&self, moment: u64) -> usize
        ensures { take result self.now.past.steps ≡ steps_to self.now moment }
    {
        if moment < self.moment {
            moment as usize
        } else {
            self.history.len()
        }
    }

    /// Counts a call, and says whether it is listed among those that fail. Time: one step for each listed.
    fn is_listed(&mut self, kind: Kind) -> bool
        ensures listed { IsTrue result ↔ IsListed self.old kind }
        ensures counted { self.new ≡ after_call self.old kind }
    {
        let number = self.calls.count(kind);
        self.failing.contains(&Fail { kind, number })
    }

    /// Whether no place is left to record a call.
    fn is_full(&self) -> bool
        ensures full { IsTrue result ↔ (self.now.past.places ≤ length self.now.past.steps) }
        ensures paced { IsPaced self.now.past self.now.moment }
    {
        self.history.is_full()
    }

    /// Counts a call, and says whether it is refused: it is listed, or no place is left to record it.
    fn is_refused(&mut self, kind: Kind) -> bool
        ensures refused { IsTrue result ↔ IsRefused self.old kind }
        ensures counted { self.new ≡ after_call self.old kind }
        ensures paced { IsPaced self.old.past self.old.moment }
    {
        let listed = self.is_listed(kind);
        let full = self.is_full();
        listed || full
    }

    /// Whether a write of so many bytes from a place on passes the room.
    fn passes_room(&self, place: u64, amount: usize) -> bool
        requires { place + amount < 2 ^ 64 }
        ensures { IsTrue result ↔ PassesRoom self.now place amount }
    {
        let end = place + amount as u64;
        end > self.history.room() as u64 || !self.history.has_room(amount) || end >= 1 << 63
    }

    /// Counts a fault.
    fn fault(&mut self) -> Failed
        ensures counted { self.new ≡ record self.old { faults = one_more self.old.faults } }
        ensures rose { Rose self.old.faults self.new.faults }
        ensures count { NeverFalls self.old.faults self.new.faults }
    {
        raise(&mut self.faults);
        Failed
    }

    /// Records a call that failed, where there is a place for it, raises the moment, and counts the fault.
    fn fail(&mut self, event: Event) -> Failed
        requires { (b : List ℕ) → read_after b (Other event) ≡ b }
        ensures recorded { self.new ≡ record self.old {
          past = recorded self.old.past (Other event);
          moment = one_more self.old.moment;
          faults = one_more self.old.faults;
        } }
        ensures rose { Rose self.old.faults self.new.faults }
        ensures count { NeverFalls self.old.faults self.new.faults }
    {
        self.history.note(event);
        raise(&mut self.moment);
        raise(&mut self.faults);
        Failed
    }

    /// Writes and records it.
    fn do_write(&mut self, place: u64, bytes: &[u8])
        requires has_place { length self.old.past.steps < self.old.past.places }
        requires joined { place ≤ length (bytes_of self.old) }
        requires has_room { ¬ PassesRoom self.old place (length bytes.now) }
        ensures { self.new ≡ record self.old {
          past = stepped self.old.past (Wrote place bytes.now);
          moment = one_more self.old.moment;
        } }
    {
        self.history.push_write(place, bytes);
        overwrite(&mut self.bytes, place, bytes).unwrap();
        raise(&mut self.moment);
    }

    /// Cuts and records it.
    fn do_cut(&mut self, to: u64)
        requires { length self.old.past.steps < self.old.past.places }
        ensures { self.new ≡ record self.old {
          past = stepped self.old.past (Other (Event.Cut to));
          moment = one_more self.old.moment;
        } }
    {
        self.history.push(Event::Cut { to });
        self.bytes.truncate(to as usize);
        raise(&mut self.moment);
    }

    /// Syncs and records it.
    fn do_sync(&mut self)
        requires { length self.old.past.steps < self.old.past.places }
        ensures { self.new ≡ record self.old {
          past = stepped self.old.past (Other Event.Sync);
          moment = one_more self.old.moment;
        } }
    {
        self.history.push(Event::Sync);
        raise(&mut self.moment);
    }

    /// Writes, or fails, as `write_at` says.
    fn try_write(&mut self, place: u64, bytes: &[u8]) -> Result<(), Failed>
        requires fits { place + length bytes.now < 2 ^ 64 }
        requires joined { place ≤ length (bytes_of self.old) }
        ensures fails { IsErr result ↔ WriteFails self.old place (length bytes.now) }
        ensures done { OnOk result
            (self.new ≡ after_step self.old Kind.Write (Wrote place bytes.now)) }
        ensures undone { OnErr result
            (self.new ≡ after_failed self.old Kind.Write (Other (Event.WriteFailed place (length bytes.now)))) }
        ensures has_place { OnOk result (length self.old.past.steps < self.old.past.places) }
        ensures within { OnOk result (place + length bytes.now < 2 ^ 63) }
        ensures paced { IsPaced self.old.past self.old.moment }
        ensures failed { OnErr result (Rose self.old.faults self.new.faults) }
        ensures count { NeverFalls self.old.faults self.new.faults }
    {
        let amount = bytes.len();
        if self.is_refused(Kind::Write) || self.passes_room(place, amount) {
            return Err(self.fail(Event::WriteFailed { place, amount }));
        }
        self.do_write(place, bytes);
        Ok(())
    }

    /// Cuts, or fails, as `cut` says.
    fn try_cut(&mut self, to: u64) -> Result<(), Failed>
        ensures fails { IsErr result ↔ IsRefused self.old Kind.Cut }
        ensures done { OnOk result
            (self.new ≡ after_step self.old Kind.Cut (Other (Event.Cut to))) }
        ensures undone { OnErr result
            (self.new ≡ after_failed self.old Kind.Cut (Other (Event.CutFailed to))) }
        ensures has_place { OnOk result (length self.old.past.steps < self.old.past.places) }
        ensures paced { IsPaced self.old.past self.old.moment }
        ensures failed { OnErr result (Rose self.old.faults self.new.faults) }
        ensures count { NeverFalls self.old.faults self.new.faults }
    {
        if self.is_refused(Kind::Cut) {
            return Err(self.fail(Event::CutFailed { to }));
        }
        self.do_cut(to);
        Ok(())
    }

    /// Syncs, or fails, as `sync` says.
    fn try_sync(&mut self) -> Result<(), Failed>
        ensures fails { IsErr result ↔ IsRefused self.old Kind.Sync }
        ensures done { OnOk result
            (self.new ≡ after_step self.old Kind.Sync (Other Event.Sync)) }
        ensures undone { OnErr result
            (self.new ≡ after_failed self.old Kind.Sync (Other Event.SyncFailed)) }
        ensures has_place { OnOk result (length self.old.past.steps < self.old.past.places) }
        ensures paced { IsPaced self.old.past self.old.moment }
        ensures failed { OnErr result (Rose self.old.faults self.new.faults) }
        ensures count { NeverFalls self.old.faults self.new.faults }
    {
        if self.is_refused(Kind::Sync) {
            return Err(self.fail(Event::SyncFailed));
        }
        self.do_sync();
        Ok(())
    }
}

impl Disk for MemDisk {
    ghost use Rattle.disk_model.specs.ReadsBack.{memory_reads_back};

    ghost told = { λ d. Some (bytes_of d) };

    ghost moment = { λ d. d.moment };

    ghost images = { λ d. ImageAt d };

    ghost faults = { λ d. d.faults };

    ghost reads_back = { memory_reads_back };

    fn len(&mut self) -> Result<u64, Failed>
        ensures fails { IsErr result ↔ IsListed self.old Kind.Len }
        ensures done { OnOk result (self.new ≡ after_call self.old Kind.Len) }
        ensures undone { OnErr result (self.new ≡ after_fault self.old Kind.Len) }
        ensures length { IfOk result (λ n. n ≡ length (bytes_of self.old)) }
        ensures within { IfOk result (λ n. n < 2 ^ 63) }
        ensures told { Some (bytes_of self.new) ≡ Some (bytes_of self.old) }
        ensures images { Stays self.old.moment self.new.moment (ImageAt self.old) (ImageAt self.new) }
        ensures failed { OnErr result (Rose self.old.faults self.new.faults) }
        ensures count { NeverFalls self.old.faults self.new.faults }
    {
        if self.is_listed(Kind::Len) {
            return Err(self.fault());
        }
        Ok(self.bytes.len() as u64)
    }

    fn read_at(&mut self, place: u64, buf: &mut [u8]) -> Result<usize, Failed>
        ensures fails { IsErr result ↔ IsListed self.old Kind.Read }
        ensures done { OnOk result (self.new ≡ after_call self.old Kind.Read) }
        ensures undone { OnErr result (self.new ≡ after_fault self.old Kind.Read) }
        ensures read { IfOk result (ReadsAt (Some (bytes_of self.old)) place buf.new) }
        ensures told { Some (bytes_of self.new) ≡ Some (bytes_of self.old) }
        ensures images { Stays self.old.moment self.new.moment (ImageAt self.old) (ImageAt self.new) }
        ensures failed { OnErr result (Rose self.old.faults self.new.faults) }
        ensures count { NeverFalls self.old.faults self.new.faults }
    {
        if self.is_listed(Kind::Read) {
            return Err(self.fault());
        }
        Ok(copy_from(self.bytes(), place, buf))
    }

    fn write_at(&mut self, place: u64, bytes: &[u8]) -> Result<(), Failed>
        requires fits { place + length bytes.now < 2 ^ 64 }
        requires joined { place ≤ length (bytes_of self.old) }
        ensures fails { IsErr result ↔ WriteFails self.old place (length bytes.now) }
        ensures done { OnOk result
            (self.new ≡ after_step self.old Kind.Write (Wrote place bytes.now)) }
        ensures undone { OnErr result
            (self.new ≡ after_failed self.old Kind.Write (Other (Event.WriteFailed place (length bytes.now)))) }
        ensures written { OnOk result
            (bytes_of self.new ≡ overwritten (bytes_of self.old) place bytes.now) }
        ensures within { OnOk result (place + length bytes.now < 2 ^ 63) }
        ensures torn { OnErr result
            (Torn place (length bytes.now) (bytes_of self.old) (bytes_of self.new)) }
        ensures images { Follows (Torn place (length bytes.now))
            (ImageAt self.old self.old.moment) (ImageAt self.new self.new.moment) }
        ensures moment { Passes self.old.moment self.new.moment (ImageAt self.old) (ImageAt self.new) }
        ensures failed { OnErr result (Rose self.old.faults self.new.faults) }
        ensures count { NeverFalls self.old.faults self.new.faults }
    {
        self.try_write(place, bytes)
    }

    fn cut(&mut self, to: u64) -> Result<(), Failed>
        ensures fails { IsErr result ↔ IsRefused self.old Kind.Cut }
        ensures done { OnOk result
            (self.new ≡ after_step self.old Kind.Cut (Other (Event.Cut to))) }
        ensures undone { OnErr result
            (self.new ≡ after_failed self.old Kind.Cut (Other (Event.CutFailed to))) }
        ensures cut { OnOk result (bytes_of self.new ≡ take to (bytes_of self.old)) }
        ensures torn { OnErr result (CutShort to (bytes_of self.old) (bytes_of self.new)) }
        ensures images { Follows (CutShort to)
            (ImageAt self.old self.old.moment) (ImageAt self.new self.new.moment) }
        ensures moment { Passes self.old.moment self.new.moment (ImageAt self.old) (ImageAt self.new) }
        ensures failed { OnErr result (Rose self.old.faults self.new.faults) }
        ensures count { NeverFalls self.old.faults self.new.faults }
    {
        self.try_cut(to)
    }

    fn sync(&mut self) -> Result<(), Failed>
        ensures fails { IsErr result ↔ IsRefused self.old Kind.Sync }
        ensures done { OnOk result
            (self.new ≡ after_step self.old Kind.Sync (Other Event.Sync)) }
        ensures undone { OnErr result
            (self.new ≡ after_failed self.old Kind.Sync (Other Event.SyncFailed)) }
        ensures firm { OnOk result
            (Only (bytes_of self.new) (ImageAt self.new self.new.moment)) }
        ensures not_firm { OnErr result
            (NoneNew (ImageAt self.new self.new.moment) (ImageAt self.old self.old.moment)) }
        ensures told { Some (bytes_of self.new) ≡ Some (bytes_of self.old) }
        ensures images { NoneNew
            (ImageAt self.old self.old.moment) (ImageAt self.new self.new.moment) }
        ensures moment { Passes self.old.moment self.new.moment (ImageAt self.old) (ImageAt self.new) }
        ensures failed { OnErr result (Rose self.old.faults self.new.faults) }
        ensures count { NeverFalls self.old.faults self.new.faults }
    {
        self.try_sync()
    }

    fn faults(&self) -> u64 {
        self.faults
    }

    fn moment(&self) -> u64 {
        self.moment
    }
}

/// Copies bytes from a place on into the front of a buffer, as many as there are and it holds, and answers
/// their number.
fn copy_from(bytes: &[u8], place: u64, buf: &mut [u8]) -> usize
    ensures { ReadsAt (Some bytes.now) place buf.new result }
{
    if place >= bytes.len() as u64 {
        return 0;
    }
    let at = place as usize;
    let n = buf.len().min(bytes.len() - at);
    buf[..n].copy_from_slice(&bytes[at..at + n]);
    n
}

/// What a choice fills pending ranges with.
fn fill_of(choice: u64) -> Option<u8>
    ensures { result ≡ fill_of choice }
{
    if choice < 2 {
        return None;
    }
    Some((choice % 256) as u8)
}
