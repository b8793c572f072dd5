//! The writing of a group, with no memory: in one piece where it is small, and piece by piece, without a copy of a
//! payload, where it is not.

ghost use Rattle.std.specs.Prelude.{◌≡◌, ◌+◌, ◌<◌, ◌≤◌, ◌^◌, ℕ, [], ◌∷◌, ◌++◌, length, Some, slice_get, IfOk, OnOk, OnErr, IfSome};
ghost use Rattle.io_edges.specs.Faults.{Rose};
ghost use Rattle.disk_model.specs.Images.{GoesOn};
ghost use Rattle.graph_model.specs.Change.{encoded_lens};
ghost use Rattle.graph_model.specs.Records.{transaction_most, group_most};
ghost use Rattle.group_codec.specs.Spelling.{u32_bytes, u64_bytes, group_bytes};
ghost use Rattle.group_commit.specs.Encoded.{Spells};
ghost use Rattle.group_commit.specs.Members.{records_at};
ghost use Rattle.graph_wal.specs.Since.{KeepsFront};
ghost use Rattle.graph_wal.specs.Pieces.{gathered_most, member_bytes, members_bytes, front_bytes, AreWithin, AreSpelled, Wrote};

use arrayvec::ArrayVec;
use byteorder::{BigEndian, ByteOrder};
use disk_model::{Disk, Failed};
use group_codec::record_head;
use group_commit::{Group, Member};

/// How many bytes are gathered into one write at most.
const GATHERED_MOST: usize = 4096;

/// Writes bytes from a place on, and answers the place behind them.
pub(crate) fn put<D: Disk>(disk: &mut D, place: u64, bytes: &[u8]) -> Result<u64, Failed>
    requires fits { place + length bytes.now < 2 ^ 64 }
    requires joined { IfSome (D.told disk.old) (λ b. place ≤ length b) }
    ensures end { IfOk result (λ n. n ≡ place + length bytes.now) }
    ensures within { IfOk result (λ n. n < 2 ^ 63) }
    ensures wrote { OnOk result (Wrote (D.told disk.old) (D.told disk.new) place bytes.now) }
    ensures front { (n : ℕ) → n ≤ place → KeepsFront D.moment D.images disk.old disk.new n }
    ensures failed { OnErr result (Rose (D.faults disk.old) (D.faults disk.new)) }
    ensures keeps { GoesOn D.told D.moment D.images D.faults disk.old disk.new }
{
    match disk.write_at(place, bytes) {
        Ok(()) => Ok(place + bytes.len() as u64),
        Err(failed) => Err(failed),
    }
}

/// The member at a place.
fn member_at(g: &Group, i: usize) -> &Member
    requires { i < length g.now }
    ensures { slice_get g.now i ≡ Some result.now }
{
    g.get(i).unwrap()
}

/// How many bytes a member takes in the log.
fn member_len(m: &Member) -> u64
    requires { encoded_lens m.now.draft.changes ≤ transaction_most }
    ensures len { result ≡ length (member_bytes m.now) }
    ensures within { result ≤ 16777236 }
    ensures spelled { Spells m.now.bytes m.now.draft.changes }
{
    20 + m.bytes().len() as u64
}

/// How long the payload of a group is.
pub(crate) fn payload_len(g: &Group) -> u64
    requires { AreWithin g.now }
    ensures len { result ≡ 12 + length (members_bytes g.now) }
    ensures within { result ≤ 1073743116 }
    ensures spelled { AreSpelled g.now }
{
    let mut len = 12;
    for i in 0..g.len() {
        len += member_len(member_at(g, i));
    }
    len
}

/// What stands before the members of a group.
#[tactic(auto, unfolding(group_codec::specs::Spelling::u64_bytes, group_codec::specs::Spelling::u32_bytes))]
fn front(len: u32, epoch: u64, count: u32) -> [u8; 16]
    ensures { result ≡ front_bytes len epoch count }
{
    let mut front = [0; 16];
    BigEndian::write_u32(&mut front, len);
    BigEndian::write_u64(&mut front[4..], epoch);
    BigEndian::write_u32(&mut front[12..], count);
    front
}

/// Writes a member from a place on, and answers the place behind it.
fn write_member<D: Disk>(disk: &mut D, place: u64, m: &Member) -> Result<u64, Failed>
    requires within { encoded_lens m.now.draft.changes ≤ transaction_most }
    requires fits { place + 16777236 < 2 ^ 64 }
    requires joined { IfSome (D.told disk.old) (λ b. place ≤ length b) }
    ensures end { IfOk result (λ n. n ≡ place + length (member_bytes m.now)) }
    ensures within { IfOk result (λ n. n < 2 ^ 63) }
    ensures wrote { OnOk result (Wrote (D.told disk.old) (D.told disk.new) place (member_bytes m.now)) }
    ensures small { IfOk result (λ n. n ≤ place + 16777236) }
    ensures front { (n : ℕ) → n ≤ place → KeepsFront D.moment D.images disk.old disk.new n }
    ensures failed { OnErr result (Rose (D.faults disk.old) (D.faults disk.new)) }
    ensures keeps { GoesOn D.told D.moment D.images D.faults disk.old disk.new }
{
    let r = m.record();
    let head = record_head(r.tid, r.read, r.changes.len() as u32);
    match put(disk, place, &head) {
        Ok(behind) => put(disk, behind, m.bytes().as_slice()),
        Err(failed) => Err(failed),
    }
}

/// Writes the members of a group from a place on, and answers the place behind them.
fn write_members<D: Disk>(disk: &mut D, start: u64, g: &Group) -> Result<u64, Failed>
    requires within { AreWithin g.now }
    requires fits { start + 1073743116 < 2 ^ 64 }
    requires joined { IfSome (D.told disk.old) (λ b. start ≤ length b) }
    ensures end { IfOk result (λ n. n ≡ start + length (members_bytes g.now)) }
    ensures within { IfOk result (λ n. n < 2 ^ 64) }
    ensures wrote { OnOk result (Wrote (D.told disk.old) (D.told disk.new) start (members_bytes g.now)) }
    ensures front { (n : ℕ) → n ≤ start → KeepsFront D.moment D.images disk.old disk.new n }
    ensures failed { OnErr result (Rose (D.faults disk.old) (D.faults disk.new)) }
    ensures keeps { GoesOn D.told D.moment D.images D.faults disk.old disk.new }
{
    let mut place = start;
    for i in 0..g.len() {
        match write_member(disk, place, member_at(g, i)) {
            Ok(behind) => place = behind,
            Err(failed) => return Err(failed),
        }
    }
    Ok(place)
}

/// Appends bytes to those that are gathered.
fn gather(gathered: &mut ArrayVec<u8, GATHERED_MOST>, bytes: &[u8])
    requires { length gathered.old.items + length bytes.now ≤ gathered_most }
    ensures { gathered.new.items ≡ gathered.old.items ++ bytes.now }
{
    match gathered.try_extend_from_slice(bytes) {
        Ok(()) => (),
        Err(_full) => unreachable!(),
    }
}

/// Appends a member to the bytes that are gathered.
fn gather_member(gathered: &mut ArrayVec<u8, GATHERED_MOST>, m: &Member)
    requires within { encoded_lens m.now.draft.changes ≤ transaction_most }
    requires fits { length gathered.old.items + length (member_bytes m.now) ≤ gathered_most }
    ensures { gathered.new.items ≡ gathered.old.items ++ member_bytes m.now }
{
    let r = m.record();
    let head = record_head(r.tid, r.read, r.changes.len() as u32);
    gather(gathered, &head);
    gather(gathered, m.bytes().as_slice());
}

/// A small group and the closed gate behind it, in one piece.
fn gathered(front: &[u8; 16], g: &Group) -> ArrayVec<u8, GATHERED_MOST>
    requires within { AreWithin g.now }
    requires fits { 17 + length (members_bytes g.now) ≤ gathered_most }
    ensures { result.items ≡ front.now ++ (members_bytes g.now ++ 0 ∷ []) }
{
    let mut gathered = ArrayVec::new();
    gather(&mut gathered, front);
    for i in 0..g.len() {
        gather_member(&mut gathered, member_at(g, i));
    }
    gathered.push(0);
    gathered
}

/// Writes a group behind what stands before its members, and the closed gate behind it, piece by piece, and answers
/// the place behind that gate.
fn write_pieces<D: Disk>(
    disk: &mut D,
    start: u64,
    front: &[u8; 16],
    g: &Group,
) -> Result<u64, Failed>
    requires within { AreWithin g.now }
    requires fits { start < 2 ^ 63 }
    requires joined { IfSome (D.told disk.old) (λ b. start ≤ length b) }
    requires short { length (members_bytes g.now) ≤ 1073743104 }
    ensures end { IfOk result (λ n. n ≡ start + length (front.now ++ (members_bytes g.now ++ 0 ∷ []))) }
    ensures within { IfOk result (λ n. n < 2 ^ 63) }
    ensures wrote { OnOk result
        (Wrote (D.told disk.old) (D.told disk.new) start (front.now ++ (members_bytes g.now ++ 0 ∷ []))) }
    ensures front { (n : ℕ) → n ≤ start → KeepsFront D.moment D.images disk.old disk.new n }
    ensures failed { OnErr result (Rose (D.faults disk.old) (D.faults disk.new)) }
    ensures keeps { GoesOn D.told D.moment D.images D.faults disk.old disk.new }
{
    let members = match put(disk, start, front) {
        Ok(members) => members,
        Err(failed) => return Err(failed),
    };
    let gate = match write_members(disk, members, g) {
        Ok(gate) => gate,
        Err(failed) => return Err(failed),
    };
    put(disk, gate, &[0])
}

/// Writes a group and the closed gate behind it from a place on, and answers the place behind that gate. A group of
/// at most 4,096 bytes takes one write; a larger one takes one for what stands before the members, two for each
/// member, and one for the gate.
pub(crate) fn write_group<D: Disk>(
    disk: &mut D,
    start: u64,
    epoch: u64,
    g: &Group,
) -> Result<u64, Failed>
    requires within { AreWithin g.now }
    requires fits { start < 2 ^ 63 }
    requires joined { IfSome (D.told disk.old) (λ b. start ≤ length b) }
    ensures end { IfOk result (λ n. n ≡ start + length (group_bytes epoch (records_at epoch g.now)) + 1) }
    ensures within { IfOk result (λ n. n < 2 ^ 63) }
    ensures wrote { OnOk result
        (Wrote (D.told disk.old) (D.told disk.new) start (group_bytes epoch (records_at epoch g.now) ++ 0 ∷ [])) }
    ensures front { (n : ℕ) → n ≤ start → KeepsFront D.moment D.images disk.old disk.new n }
    ensures spelled { AreSpelled g.now }
    ensures few { length g.now ≤ group_most }
    ensures short { length (members_bytes g.now) ≤ 1073743104 }
    ensures failed { OnErr result (Rose (D.faults disk.old) (D.faults disk.new)) }
    ensures keeps { GoesOn D.told D.moment D.images D.faults disk.old disk.new }
{
    let len = payload_len(g);
    let front = front(len as u32, epoch, g.len() as u32);
    if len + 5 <= GATHERED_MOST as u64 {
        put(disk, start, gathered(&front, g).as_slice())
    } else {
        write_pieces(disk, start, &front, g)
    }
}
