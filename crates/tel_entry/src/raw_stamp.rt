//! Stamps as numbers, and who sees what has them.

ghost use Rattle.std.specs.Prelude.{◌≡◌, ℕ, ◌<◌, ◌≤◌};
ghost use Rattle.stamps.specs.declared.stamp.Stamp.TheVariants.{By};
ghost use Rattle.stamps.specs.Stamps.{Reader, Txn, counts};
ghost use Rattle.tel_entry.specs.RawStamps.{private_from, stamp_of, raw_of, raw_visible, IsPastRaw};

/// The stamp of what has not ended.
pub const NEVER: u64 = 0;

// The least private stamp.
const PRIVATE: u64 = 1 << 63;

/// The stamp that is private to the transaction `tid`.
pub fn private_stamp(tid: u64) -> u64
    requires { tid < private_from }
    ensures stamp { stamp_of result ≡ By tid }
    ensures raw { result ≡ raw_of (By tid) }
{
    PRIVATE + tid
}

/// Whether the transaction `tid` sees at the epoch `read` what has these stamps: `created` is its own
/// private stamp or an epoch at most `read`, and `ended` is neither.
#[inline(always)]
pub fn visible(created: u64, ended: u64, read: u64, tid: u64) -> bool
    ensures { result ≡ raw_visible created ended read (Txn tid) }
{
    counts(created, read, tid) & !counts(ended, read, tid)
}

/// The same of what began at an epoch at most `read`, and ended at such an epoch where it has ended: whoever looks sees it
/// unless it has ended.
#[inline(always)]
pub fn never_ended(ended: u64) -> bool
    ensures { (created e : ℕ) (who : Reader) → IsPastRaw e created → ended ≤ e → ended < private_from
        → result ≡ raw_visible created ended e who }
{
    ended == NEVER
}

// Whether a stamp counts, without a branch. A stamp below `PRIVATE` is an epoch, but 0, which is the greatest number
// less 1.
#[inline(always)]
fn counts(stamp: u64, read: u64, tid: u64) -> bool
    ensures { result ≡ counts (stamp_of stamp) read (Txn tid) }
{
    let own = (tid < PRIVATE) & (stamp == tid.wrapping_add(PRIVATE));
    own | (stamp.wrapping_sub(1) < read.min(PRIVATE - 1))
}
