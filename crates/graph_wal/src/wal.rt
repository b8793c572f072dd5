//! The log on a disk, to which groups are appended.

ghost use Rattle.std.specs.Prelude.{◌≡◌, ◌⊎◌, ◌↔◌, ◌+◌, ◌-◌, ◌<◌, ◌≤◌, ◌^◌, ℕ, List, Option, Some, None, [], ◌∷◌, ◌++◌, length, IfOk, IfErr, OnOk, OnErr, IfSome, IsOk, IsTrue};
ghost use Rattle.io_edges.specs.Faults.{Rose};
ghost use Rattle.graph_model.specs.declared.record.Record.{Record};
ghost use Rattle.graph_model.specs.Records.{Lawful, last_epoch};
ghost use Rattle.disk_model.specs.Images.{Only, GoesOn, EachImage};
ghost use Rattle.group_codec.specs.Spelling.{group_bytes};
ghost use Rattle.group_codec.specs.Log.{log_head, Recovers};
ghost use Rattle.group_commit.specs.Members.{records_at};
ghost use Rattle.graph_wal.specs.Since.{Since};
ghost use Rattle.graph_wal.specs.Pieces.{AreWithin, Wrote};

use crate::DiskFault;
use crate::steps::{cut_to, set_byte, stage_group};
use disk_model::{Disk, Failed};
use group_commit::Group;

/// What stands behind the durable records.
#[derive(Clone, Copy, Debug, PartialEq, Eq)]
pub enum Attempt {
    /// No attempt, and the bytes are firm.
    Mended,
    /// A failed attempt, whose gate was not touched.
    Untouched,
    /// A failed attempt, whole and firm, whose gate was touched.
    Touched,
}

/// The log on a disk, which it has to itself.
#[derive(Drop)]
pub struct Wal<D: Disk> {
    disk: D,
    durable: u64,
    attempt: Attempt,
}

impl<D: Disk> Wal<D> {
    ghost use Rattle.graph_wal.specs.Log.{RecoversTo, RecoversToEither, IsReady, MayAppend, HasNoRest, IsMended, IsSettled, Stands};
    ghost use Rattle.graph_wal.specs.Appends.{Durable, durable_group, Tried, tried, all_records, HasAppended};
    ghost use Rattle.graph_wal.specs.Fault.{IsFault};
    ghost use Rattle.graph_wal.specs.declared.wal.Attempt.TheVariants as attempts;

    /// Makes the log without a group on an empty disk.
    ///
    /// `DiskFault`: the disk failed, and is handed back. Nothing is claimed of what it holds, or of what a crash
    /// leaves of it.
    pub fn make(disk: D) -> Result<Wal<D>, (DiskFault, D)>
        requires { IfSome (D.told disk) (λ b. b ≡ []) }
        ensures made { IfOk result (λ w. Stands D.told D.moment D.images w [] None) }
        ensures begun { IfOk result (λ w.
            HasAppended D.told D.moment D.images w (D.moment w.disk) [] [] []) }
        ensures settled { IfOk result (λ w. IsSettled D.told D.moment D.images w []) }
        ensures mended { IfOk result (λ w. IsMended w) }
        ensures no_rest { IfOk result (λ w. HasNoRest D.told w) }
        ensures bytes { IfOk result (λ w. IfSome (D.told w.disk) (λ b. b ≡ log_head ++ 0 ∷ [])) }
        ensures durable { IfOk result (λ w. w.durable ≡ 9) }
        ensures disk_fault { IfErr result (λ e. IsFault (D.faults disk) (D.faults e.1) e.0) }
        ensures keeps { IfOk result (λ w. GoesOn D.told D.moment D.images D.faults disk w.disk) }
        ensures keeps_refused { IfErr result (λ e. GoesOn D.told D.moment D.images D.faults disk e.1) }
    {
        let mut disk = disk;
        let before = disk.faults();
        match write_empty(&mut disk) {
            Ok(()) => Ok(Wal {
                disk,
                durable: EMPTY,
                attempt: Attempt::Mended,
            }),
            Err(Failed) => {
                let after = disk.faults();
                Err((DiskFault { before, after }, disk))
            }
        }
    }

    /// The log that a disk holds, with this durable length.
    pub fn adopt(disk: D, durable: u64) -> Wal<D>
        requires long { 9 ≤ durable }
        requires short { durable < 2 ^ 63 }
        requires log { IfSome (D.told disk)
            (λ b. Only b (D.images disk (D.moment disk)) × ((r : List Record) × Recovers b r durable)) }
        ensures adopted { (r : List Record) → IfSome (D.told disk) (λ b. Recovers b r durable) →
            Stands D.told D.moment D.images result r None }
        ensures begun { (r : List Record) (from : ℕ) → IfSome (D.told disk) (λ b. Recovers b r durable) →
            IfSome (D.told disk) (λ _. EachImage D.moment D.images disk from (λ _ c. RecoversTo r c)) →
            HasAppended D.told D.moment D.images result from r [] [] }
        ensures mended { IsMended result }
        ensures disk { result.disk ≡ disk }
        ensures durable { result.durable ≡ durable }
    {
        Wal {
            disk,
            durable,
            attempt: Attempt::Mended,
        }
    }

    /// Appends a group, and answers the moment from which it is durable: every image from then on has it. It takes
    /// no memory. Time: the bytes of the group and two syncs, whatever the length of the log; where an attempt
    /// stands, at most two writes and two syncs more. After it no attempt stands.
    ///
    /// `DiskFault`: the durable records are as before, and at most one attempt stands behind them: this one, or
    /// the one that was to be taken off first. One does stand, until a later append or a mend takes it off.
    pub fn append_group(&mut self, epoch: u64, g: &Group) -> Result<u64, DiskFault>
        requires ready { (r : List Record) × (a : Option (List Record)) ×
            Stands D.told D.moment D.images self.old r a × MayAppend (D.told self.old.disk) r epoch g.now }
        requires members { 0 < length g.now }
        requires within { AreWithin g.now }
        ensures acknowledged { IfOk result (λ m.
            (from : ℕ) (base : List Record) (groups : List Durable) (failed : List Tried) →
            HasAppended D.told D.moment D.images self.old from base groups failed →
            MayAppend (D.told self.old.disk) (all_records base groups) epoch g.now →
            HasAppended D.told D.moment D.images self.new from
            base (groups ++ durable_group (records_at epoch g.now) m ∷ []) failed) }
        ensures given_up { OnErr result (
            (from : ℕ) (base : List Record) (groups : List Durable) (failed : List Tried) →
            HasAppended D.told D.moment D.images self.old from base groups failed →
            MayAppend (D.told self.old.disk) (all_records base groups) epoch g.now →
            HasAppended D.told D.moment D.images self.new from
            base groups (tried (length groups) (records_at epoch g.now) ∷ failed)) }
        ensures mended { OnOk result (IsMended self.new) }
        ensures not_mended { OnErr result (IsMended self.new → ⊥) }
        ensures appended { (r : List Record) (a : Option (List Record)) →
            Stands D.told D.moment D.images self.old r a → MayAppend (D.told self.old.disk) r epoch g.now →
            OnOk result (Stands D.told D.moment D.images self.new (r ++ records_at epoch g.now) None) }
        ensures moment { IfOk result (λ m. m ≡ D.moment self.new.disk) }
        ensures any_moment { (r : List Record) (a : Option (List Record)) →
            Stands D.told D.moment D.images self.old r a → MayAppend (D.told self.old.disk) r epoch g.now →
            IfSome (D.told self.old.disk) (λ _. Since D.moment D.images self.old.disk self.new.disk
            (λ c. RecoversToEither r a c ⊎ RecoversTo (r ++ records_at epoch g.now) c)) }
        ensures attempted { (r : List Record) (a : Option (List Record)) →
            Stands D.told D.moment D.images self.old r a → MayAppend (D.told self.old.disk) r epoch g.now →
            OnErr result (Stands D.told D.moment D.images self.new r (Some (records_at epoch g.now)) ⊎
            Stands D.told D.moment D.images self.new r a) }
        ensures durable { OnOk result (self.new.durable ≡
            self.old.durable + length (group_bytes epoch (records_at epoch g.now)) + 1) }
        ensures no_rest { OnOk result ((IsMended self.old → HasNoRest D.told self.old) → HasNoRest D.told self.new) }
        ensures unchanged { OnErr result (self.new.durable ≡ self.old.durable) }
        ensures disk_fault { IfErr result (IsFault (D.faults self.old.disk) (D.faults self.new.disk)) }
        ensures keeps { GoesOn D.told D.moment D.images D.faults self.old.disk self.new.disk }
    {
        let before = self.disk.faults();
        match self.try_append(epoch, g) {
            Ok(moment) => Ok(moment),
            Err(Failed) => Err(self.fault_since(before)),
        }
    }

    /// Takes an attempt off, if one stands.
    ///
    /// `DiskFault`: the durable records are as before, and the attempt may stand.
    pub fn mend(&mut self) -> Result<(), DiskFault>
        requires { (r : List Record) × (a : Option (List Record)) × Stands D.told D.moment D.images self.old r a }
        ensures kept { (from : ℕ) (base : List Record) (groups : List Durable) (failed : List Tried) →
            HasAppended D.told D.moment D.images self.old from base groups failed →
            HasAppended D.told D.moment D.images self.new from base groups failed }
        ensures mended { (r : List Record) (a : Option (List Record)) →
            Stands D.told D.moment D.images self.old r a →
            OnOk result (Stands D.told D.moment D.images self.new r None) }
        ensures settled { (r : List Record) (a : Option (List Record)) →
            Stands D.told D.moment D.images self.old r a →
            OnOk result (IsSettled D.told D.moment D.images self.new r) }
        ensures any_moment { (r : List Record) (a : Option (List Record)) →
            Stands D.told D.moment D.images self.old r a →
            IfSome (D.told self.old.disk) (λ _. Since D.moment D.images self.old.disk self.new.disk
            (RecoversToEither r a)) }
        ensures attempted { (r : List Record) (a : Option (List Record)) →
            Stands D.told D.moment D.images self.old r a → Stands D.told D.moment D.images self.new r a }
        ensures no_rest { OnOk result ((IsMended self.old → HasNoRest D.told self.old) → HasNoRest D.told self.new) }
        ensures gone { OnOk result (IsMended self.new) }
        ensures not_mended { OnErr result (IsMended self.new → ⊥) }
        ensures durable { self.new.durable ≡ self.old.durable }
        ensures disk_fault { IfErr result (IsFault (D.faults self.old.disk) (D.faults self.new.disk)) }
        ensures keeps { GoesOn D.told D.moment D.images D.faults self.old.disk self.new.disk }
    {
        let before = self.disk.faults();
        match self.try_mend() {
            Ok(()) => Ok(()),
            Err(Failed) => Err(self.fault_since(before)),
        }
    }

    /// Whether no attempt stands.
    pub fn mended(&self) -> bool
        ensures answer { IsTrue result ↔ (IsMended self.now) }
        ensures mended { (r : List Record) (a : Option (List Record)) →
            Stands D.told D.moment D.images self.now r a → IsTrue result →
            Stands D.told D.moment D.images self.now r None }
        ensures settled { (r : List Record) (a : Option (List Record)) →
            Stands D.told D.moment D.images self.now r a → IsTrue result →
            IsSettled D.told D.moment D.images self.now r }
    {
        self.attempt == Attempt::Mended
    }

    /// The durable length: the place behind the gate after the last durable group.
    pub fn durable(&self) -> u64
        ensures { result ≡ self.now.durable }
    {
        self.durable
    }

    /// The disk.
    pub fn into_disk(self) -> D
        ensures { result ≡ self.disk }
    {
        self.disk
    }

    /// The fault that the disk had since its count was this.
    fn fault_since(&self, before: u64) -> DiskFault
        ensures { result ≡ record { before = before; after = D.faults self.now.disk } }
    {
        let after = self.disk.faults();
        DiskFault { before, after }
    }

    /// Closes the gate of an attempt, and makes that firm.
    fn close_gate(&mut self) -> Result<(), Failed>
        requires stands { (r : List Record) × (a : Option (List Record)) ×
            Stands D.told D.moment D.images self.old r a }
        requires touched { self.old.attempt ≡ attempts.Touched }
        ensures stands { (r : List Record) (a : Option (List Record)) → Stands D.told D.moment D.images self.old r a →
            Stands D.told D.moment D.images self.new r a }
        ensures closed { OnOk result (self.new.attempt ≡ attempts.Untouched) }
        ensures not_mended { OnErr result (IsMended self.new → ⊥) }
        ensures durable { self.new.durable ≡ self.old.durable }
        ensures any_moment { (r : List Record) (a : Option (List Record)) →
            Stands D.told D.moment D.images self.old r a →
            IfSome (D.told self.old.disk) (λ _. Since D.moment D.images self.old.disk self.new.disk
            (RecoversToEither r a)) }
        ensures failed { OnErr result (Rose (D.faults self.old.disk) (D.faults self.new.disk)) }
        ensures keeps { GoesOn D.told D.moment D.images D.faults self.old.disk self.new.disk }
    {
        match set_byte(&mut self.disk, self.durable - 1, 0) {
            Ok(()) => {
                self.attempt = Attempt::Untouched;
                Ok(())
            }
            Err(failed) => Err(failed),
        }
    }

    /// Cuts off what stands behind the closed gate, and makes that firm.
    fn cut_rest(&mut self) -> Result<(), Failed>
        requires stands { (r : List Record) × (a : Option (List Record)) ×
            Stands D.told D.moment D.images self.old r a }
        requires untouched { self.old.attempt ≡ attempts.Untouched }
        ensures stands { (r : List Record) (a : Option (List Record)) → Stands D.told D.moment D.images self.old r a →
            Stands D.told D.moment D.images self.new r a }
        ensures mended { OnOk result (IsMended self.new) }
        ensures not_mended { OnErr result (IsMended self.new → ⊥) }
        ensures durable { self.new.durable ≡ self.old.durable }
        ensures no_rest { OnOk result (HasNoRest D.told self.new) }
        ensures any_moment { (r : List Record) (a : Option (List Record)) →
            Stands D.told D.moment D.images self.old r a →
            IfSome (D.told self.old.disk) (λ _. Since D.moment D.images self.old.disk self.new.disk
            (RecoversToEither r a)) }
        ensures failed { OnErr result (Rose (D.faults self.old.disk) (D.faults self.new.disk)) }
        ensures keeps { GoesOn D.told D.moment D.images D.faults self.old.disk self.new.disk }
    {
        match cut_to(&mut self.disk, self.durable) {
            Ok(()) => {
                self.attempt = Attempt::Mended;
                Ok(())
            }
            Err(failed) => Err(failed),
        }
    }

    /// Takes an attempt off, if one stands.
    fn try_mend(&mut self) -> Result<(), Failed>
        requires stands { (r : List Record) × (a : Option (List Record)) ×
            Stands D.told D.moment D.images self.old r a }
        ensures stands { (r : List Record) (a : Option (List Record)) → Stands D.told D.moment D.images self.old r a →
            Stands D.told D.moment D.images self.new r a }
        ensures mended { OnOk result (IsMended self.new) }
        ensures not_mended { OnErr result (IsMended self.new → ⊥) }
        ensures durable { self.new.durable ≡ self.old.durable }
        ensures no_rest { OnOk result ((IsMended self.old → HasNoRest D.told self.old) → HasNoRest D.told self.new) }
        ensures any_moment { (r : List Record) (a : Option (List Record)) →
            Stands D.told D.moment D.images self.old r a →
            IfSome (D.told self.old.disk) (λ _. Since D.moment D.images self.old.disk self.new.disk
            (RecoversToEither r a)) }
        ensures failed { OnErr result (Rose (D.faults self.old.disk) (D.faults self.new.disk)) }
        ensures keeps { GoesOn D.told D.moment D.images D.faults self.old.disk self.new.disk }
    {
        match self.attempt {
            Attempt::Touched => match self.close_gate() {
                Ok(()) => self.cut_rest(),
                Err(failed) => Err(failed),
            },
            Attempt::Untouched => self.cut_rest(),
            Attempt::Mended => Ok(()),
        }
    }

    /// Writes a group and a closed gate behind the closed gate, and makes them firm. Answers the place behind.
    fn stage(&mut self, epoch: u64, g: &Group) -> Result<u64, Failed>
        requires stands { (r : List Record) × (a : Option (List Record)) ×
            Stands D.told D.moment D.images self.old r a }
        requires mended { IsMended self.old }
        requires members { 0 < length g.now }
        requires within { AreWithin g.now }
        ensures ready { IfOk result (λ end. (r : List Record) (a : Option (List Record)) →
            Stands D.told D.moment D.images self.old r a → MayAppend (D.told self.old.disk) r epoch g.now →
            IsReady D.told D.moment D.images self.new r (records_at epoch g.now) end) }
        ensures end { IfOk result (λ end. end ≡
            self.old.durable + length (group_bytes epoch (records_at epoch g.now)) + 1) }
        ensures stands { (r : List Record) (a : Option (List Record)) → Stands D.told D.moment D.images self.old r a →
            OnErr result (Stands D.told D.moment D.images self.new r a) }
        ensures not_mended { OnErr result (IsMended self.new → ⊥) }
        ensures wrote { OnOk result (Wrote (D.told self.old.disk) (D.told self.new.disk) self.old.durable
            (group_bytes epoch (records_at epoch g.now) ++ 0 ∷ [])) }
        ensures durable { self.new.durable ≡ self.old.durable }
        ensures any_moment { (r : List Record) (a : Option (List Record)) →
            Stands D.told D.moment D.images self.old r a →
            IfSome (D.told self.old.disk) (λ _. Since D.moment D.images self.old.disk self.new.disk
            (RecoversToEither r a)) }
        ensures failed { OnErr result (Rose (D.faults self.old.disk) (D.faults self.new.disk)) }
        ensures keeps { GoesOn D.told D.moment D.images D.faults self.old.disk self.new.disk }
    {
        self.attempt = Attempt::Untouched;
        stage_group(&mut self.disk, self.durable, epoch, g)
    }

    /// Opens the gate before a group that is ready, up to this place, and makes that firm.
    fn open_gate(&mut self, end: u64) -> Result<(), Failed>
        requires { (r : List Record) × (g : List Record) × IsReady D.told D.moment D.images self.old r g end }
        ensures opened { (r : List Record) (g : List Record) → IsReady D.told D.moment D.images self.old r g end →
            OnOk result (Stands D.told D.moment D.images self.new (r ++ g) None) }
        ensures attempted { (r : List Record) (g : List Record) → IsReady D.told D.moment D.images self.old r g end →
            OnErr result (Stands D.told D.moment D.images self.new r (Some g)) }
        ensures wrote { OnOk result (Wrote (D.told self.old.disk) (D.told self.new.disk) (self.old.durable - 1)
            (1 ∷ [])) }
        ensures durable { OnOk result (self.new.durable ≡ end) }
        ensures unchanged { OnErr result (self.new.durable ≡ self.old.durable) }
        ensures mended { OnOk result (IsMended self.new) }
        ensures not_mended { OnErr result (IsMended self.new → ⊥) }
        ensures any_moment { (r : List Record) (g : List Record) → IsReady D.told D.moment D.images self.old r g end →
            IfSome (D.told self.old.disk) (λ _. Since D.moment D.images self.old.disk self.new.disk
            (RecoversToEither r (Some g))) }
        ensures failed { OnErr result (Rose (D.faults self.old.disk) (D.faults self.new.disk)) }
        ensures keeps { GoesOn D.told D.moment D.images D.faults self.old.disk self.new.disk }
    {
        self.attempt = Attempt::Touched;
        match set_byte(&mut self.disk, self.durable - 1, 1) {
            Ok(()) => {
                self.durable = end;
                self.attempt = Attempt::Mended;
                Ok(())
            }
            Err(failed) => Err(failed),
        }
    }

    /// Writes a group, where no attempt stands, and answers the moment at which it is durable.
    fn write_next(&mut self, epoch: u64, g: &Group) -> Result<u64, Failed>
        requires ready { (r : List Record) × (a : Option (List Record)) ×
            Stands D.told D.moment D.images self.old r a × MayAppend (D.told self.old.disk) r epoch g.now }
        requires mended { IsMended self.old }
        requires members { 0 < length g.now }
        requires within { AreWithin g.now }
        ensures moment { IfOk result (λ m. m ≡ D.moment self.new.disk) }
        ensures mended { OnOk result (IsMended self.new) }
        ensures not_mended { OnErr result (IsMended self.new → ⊥) }
        ensures opened { (r : List Record) (a : Option (List Record)) → Stands D.told D.moment D.images self.old r a →
            MayAppend (D.told self.old.disk) r epoch g.now →
            OnOk result (Stands D.told D.moment D.images self.new (r ++ records_at epoch g.now) None) }
        ensures attempted { (r : List Record) (a : Option (List Record)) →
            Stands D.told D.moment D.images self.old r a → MayAppend (D.told self.old.disk) r epoch g.now →
            OnErr result (Stands D.told D.moment D.images self.new r (Some (records_at epoch g.now))) }
        ensures durable { OnOk result (self.new.durable ≡
            self.old.durable + length (group_bytes epoch (records_at epoch g.now)) + 1) }
        ensures no_rest { OnOk result (HasNoRest D.told self.old → HasNoRest D.told self.new) }
        ensures unchanged { OnErr result (self.new.durable ≡ self.old.durable) }
        ensures any_moment { (r : List Record) (a : Option (List Record)) →
            Stands D.told D.moment D.images self.old r a → MayAppend (D.told self.old.disk) r epoch g.now →
            IfSome (D.told self.old.disk) (λ _. Since D.moment D.images self.old.disk self.new.disk
            (RecoversToEither r (Some (records_at epoch g.now)))) }
        ensures failed { OnErr result (Rose (D.faults self.old.disk) (D.faults self.new.disk)) }
        ensures keeps { GoesOn D.told D.moment D.images D.faults self.old.disk self.new.disk }
    {
        match self.stage(epoch, g) {
            Ok(end) => match self.open_gate(end) {
                Ok(()) => Ok(self.disk.moment()),
                Err(failed) => Err(failed),
            },
            Err(failed) => Err(failed),
        }
    }

    /// Takes an attempt off, if one stands, writes a group, and answers the moment at which it is durable.
    fn try_append(&mut self, epoch: u64, g: &Group) -> Result<u64, Failed>
        requires ready { (r : List Record) × (a : Option (List Record)) ×
            Stands D.told D.moment D.images self.old r a × MayAppend (D.told self.old.disk) r epoch g.now }
        requires members { 0 < length g.now }
        requires within { AreWithin g.now }
        ensures moment { IfOk result (λ m. m ≡ D.moment self.new.disk) }
        ensures mended { OnOk result (IsMended self.new) }
        ensures not_mended { OnErr result (IsMended self.new → ⊥) }
        ensures appended { (r : List Record) (a : Option (List Record)) →
            Stands D.told D.moment D.images self.old r a → MayAppend (D.told self.old.disk) r epoch g.now →
            OnOk result (Stands D.told D.moment D.images self.new (r ++ records_at epoch g.now) None) }
        ensures attempted { (r : List Record) (a : Option (List Record)) →
            Stands D.told D.moment D.images self.old r a → MayAppend (D.told self.old.disk) r epoch g.now →
            OnErr result (Stands D.told D.moment D.images self.new r (Some (records_at epoch g.now)) ⊎
            Stands D.told D.moment D.images self.new r a) }
        ensures durable { OnOk result (self.new.durable ≡
            self.old.durable + length (group_bytes epoch (records_at epoch g.now)) + 1) }
        ensures no_rest { OnOk result ((IsMended self.old → HasNoRest D.told self.old) → HasNoRest D.told self.new) }
        ensures unchanged { OnErr result (self.new.durable ≡ self.old.durable) }
        ensures any_moment { (r : List Record) (a : Option (List Record)) →
            Stands D.told D.moment D.images self.old r a → MayAppend (D.told self.old.disk) r epoch g.now →
            IfSome (D.told self.old.disk) (λ _. Since D.moment D.images self.old.disk self.new.disk
            (λ c. RecoversToEither r a c ⊎ RecoversTo (r ++ records_at epoch g.now) c)) }
        ensures failed { OnErr result (Rose (D.faults self.old.disk) (D.faults self.new.disk)) }
        ensures keeps { GoesOn D.told D.moment D.images D.faults self.old.disk self.new.disk }
    {
        match self.try_mend() {
            Ok(()) => self.write_next(epoch, g),
            Err(failed) => Err(failed),
        }
    }
}

/// The length of the log without a group.
const EMPTY: u64 = 9;

/// Writes the log without a group on an empty disk, and makes it firm.
fn write_empty<D: Disk>(disk: &mut D) -> Result<(), Failed>
    requires { IfSome (D.told disk.old) (λ b. b ≡ []) }
    ensures bytes { OnOk result (IfSome (D.told disk.new) (λ b. b ≡ log_head ++ 0 ∷ [])) }
    ensures firm { OnOk result
        (IfSome (D.told disk.new) (λ b. Only b (D.images disk.new (D.moment disk.new)))) }
    ensures failed { OnErr result (Rose (D.faults disk.old) (D.faults disk.new)) }
    ensures keeps { GoesOn D.told D.moment D.images D.faults disk.old disk.new }
{
    match disk.write_at(0, b"TELLOG1\n\0") {
        Ok(()) => disk.sync(),
        Err(failed) => Err(failed),
    }
}
