//! What a caller concludes over many calls, some of which fail, by their clauses alone; and that the calls succeed
//! with ample memory.

ghost use Rattle.std.specs.Prelude.{◌≡◌, ℕ, ◌+◌, ◌^◌, ◌<◌, nat_eq, IfSome, OnOk, OnErr, if◌then◌else◌, count_by};
ghost use Rattle.std.specs.Option.{unwrap_or};
ghost use Rattle.number_map.specs.KeptAt.{kept_at};

use crate::NumberMap;
use std::alloc::Global;
use std::test::Fail;

// Counts a number once more.
fn count_one(counts: &mut NumberMap<u64>, n: u64) -> Result<(), u64>
    requires room { unwrap_or (kept_at counts.old n) 0 < 2 ^ 63 }
    ensures counted { OnOk result ((m : ℕ) → unwrap_or (kept_at counts.new m) 0
        ≡ unwrap_or (kept_at counts.old m) 0 + (if nat_eq m n then 1 else 0)) }
    ensures unchanged { OnErr result ((m : ℕ) → kept_at counts.new m ≡ kept_at counts.old m) }
{
    if let Some(count) = counts.get_mut(n) {
        *count += 1;
        return Ok(());
    }
    counts.insert(n, 1)
}

// How often each number stands in a list; none where memory ran out.
fn counts_of(alloc: Global, numbers: &[u64]) -> Option<NumberMap<u64>>
    ensures { IfSome result (λ counts. (n : ℕ) → unwrap_or (kept_at counts n) 0
        ≡ count_by (nat_eq n) numbers.now) }
{
    let mut counts = NumberMap::new(alloc);
    for n in numbers {
        if count_one(&mut counts, *n).is_err() {
            return None;
        }
    }
    Some(counts)
}

#[test]
fn each_number_has_what_was_kept_there(rt: HostRuntime) -> Result<(), Fail> {
    let far = 1 << 40;
    let mut numbers = Vec::new(rt.alloc());
    for n in 0..100 {
        numbers.push(n)?;
    }
    for n in [far, 100, 50, far, 102, u64::MAX] {
        numbers.push(n)?;
    }
    let counts = counts_of(rt.alloc(), numbers.as_slice()).ok_or("memory")?;
    assert_eq!(rt; counts.get(far).copied(), Some(2));
    assert_eq!(rt; counts.get(50).copied(), Some(2));
    assert_eq!(rt; counts.get(100).copied(), Some(1));
    assert_eq!(rt; counts.get(101).copied(), None);
    assert_eq!(rt; counts.get(103).copied(), None);
    let next = |n| counts.next_from(n).map(|(m, count)| (m, *count));
    assert_eq!(rt; next(101), Some((102, 1)));
    assert_eq!(rt; next(103), Some((far, 2)));
    assert_eq!(rt; next(far + 1), Some((u64::MAX, 1)));
    Ok(())
}
