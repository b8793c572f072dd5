//! What a disk does, call by call, and what a crash may leave of it.

ghost use Rattle.std.specs.Prelude.{◌≡◌, ◌+◌, ◌^◌, ◌<◌, ◌≤◌, ℕ, List, Option, Some, length, take, IfOk, OnOk, OnErr, IfSome};
ghost use Rattle.io_edges.specs.Faults.{NeverFalls, Rose};
ghost use Rattle.disk_model.specs.Images.{overwritten, Torn, CutShort, Follows, Only, NoneNew, Passes, Stays, ToldBy, ReadsAt};

use crate::Failed;

/// One file on a disk.
///
/// A call that fails has raised the count of faults. A write, a cut or a sync raises the moment whether it
/// succeeds or fails, and what a crash at an earlier moment could leave stays as it was.
pub trait Disk {
    /// The bytes that a read gives, where the disk tells them.
    ghost told: { Self → Option (List ℕ) };

    /// The moment, a number that does not fall.
    ghost moment: { Self → ℕ };

    /// What a crash at a moment may leave. At the moment that stands now: what a crash now may leave.
    ghost images: { Self → ℕ → List ℕ → Type 0 };

    /// The count of faults.
    ghost faults: { Self → ℕ };

    /// The number of bytes.
    fn len(&mut self) -> Result<u64, Failed>
        ensures length { IfOk result (λ n. IfSome (told self.old) (λ b. n ≡ length b)) }
        ensures within { IfOk result (λ n. n < 2 ^ 63) }
        ensures told { told self.new ≡ told self.old }
        ensures images { Stays (moment self.old) (moment self.new) (images self.old) (images self.new) }
        ensures failed { OnErr result (Rose (faults self.old) (faults self.new)) }
        ensures count { NeverFalls (faults self.old) (faults self.new) };

    /// Reads bytes from a place on into the front of `buf`, and answers their number: none at the end or past
    /// it, else at least one where `buf` has room.
    fn read_at(&mut self, place: u64, buf: &mut [u8]) -> Result<usize, Failed>
        ensures read { IfOk result (ReadsAt (told self.old) place buf.new) }
        ensures told { told self.new ≡ told self.old }
        ensures images { Stays (moment self.old) (moment self.new) (images self.old) (images self.new) }
        ensures failed { OnErr result (Rose (faults self.old) (faults self.new)) }
        ensures count { NeverFalls (faults self.old) (faults self.new) };

    /// Writes bytes from a place on, over what stands there and past the end. Until a sync a crash may leave
    /// any bytes in that range and past the end. A write that would end past 2^63 - 1 fails.
    ///
    /// `Failed`: the range may hold any bytes.
    fn write_at(&mut self, place: u64, bytes: &[u8]) -> Result<(), Failed>
        requires fits { place + length bytes.now < 2 ^ 64 }
        requires joined { IfSome (told self.old) (λ b. place ≤ length b) }
        ensures written { OnOk result
            (ToldBy (λ old new. new ≡ overwritten old place bytes.now) (told self.old) (told self.new)) }
        ensures within { OnOk result (place + length bytes.now < 2 ^ 63) }
        ensures torn { OnErr result
            (ToldBy (Torn place (length bytes.now)) (told self.old) (told self.new)) }
        ensures images { Follows (Torn place (length bytes.now))
            (images self.old (moment self.old)) (images self.new (moment self.new)) }
        ensures moment { Passes (moment self.old) (moment self.new) (images self.old) (images self.new) }
        ensures failed { OnErr result (Rose (faults self.old) (faults self.new)) }
        ensures count { NeverFalls (faults self.old) (faults self.new) };

    /// Makes the file at most so many bytes long; a shorter file stays as it is. Until a sync a crash may leave
    /// any bytes past that length.
    ///
    /// `Failed`: past that length there may be any bytes.
    fn cut(&mut self, to: u64) -> Result<(), Failed>
        ensures cut { OnOk result
            (ToldBy (λ old new. new ≡ take to old) (told self.old) (told self.new)) }
        ensures torn { OnErr result (ToldBy (CutShort to) (told self.old) (told self.new)) }
        ensures images { Follows (CutShort to)
            (images self.old (moment self.old)) (images self.new (moment self.new)) }
        ensures moment { Passes (moment self.old) (moment self.new) (images self.old) (images self.new) }
        ensures failed { OnErr result (Rose (faults self.old) (faults self.new)) }
        ensures count { NeverFalls (faults self.old) (faults self.new) };

    /// Makes what a read gives firm: after it a crash leaves that and nothing else.
    ///
    /// `Failed`: a crash may leave what it could leave before, and all of that.
    fn sync(&mut self) -> Result<(), Failed>
        ensures firm { OnOk result
            (IfSome (told self.new) (λ b. Only b (images self.new (moment self.new)))) }
        ensures not_firm { OnErr result
            (NoneNew (images self.new (moment self.new)) (images self.old (moment self.old))) }
        ensures told { told self.new ≡ told self.old }
        ensures images { NoneNew
            (images self.old (moment self.old)) (images self.new (moment self.new)) }
        ensures moment { Passes (moment self.old) (moment self.new) (images self.old) (images self.new) }
        ensures failed { OnErr result (Rose (faults self.old) (faults self.new)) }
        ensures count { NeverFalls (faults self.old) (faults self.new) };

    /// The count of faults.
    fn faults(&self) -> u64
        ensures { result ≡ faults self.now };

    /// The moment.
    fn moment(&self) -> u64
        ensures { result ≡ moment self.now };

    /// The bytes as they read are one of the images.
    ghost reads_back: { (d : Self) (b : List ℕ) → told d ≡ Some b → images d (moment d) b };
}
