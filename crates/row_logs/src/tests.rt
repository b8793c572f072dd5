//! What a caller concludes over several calls by their clauses alone; and that the calls succeed with ample memory.

ghost use Rattle.std.specs.Prelude.{◌≡◌, ℕ, ◌<◌, ◌∷◌, [], length, slice_set, IfOk};

use crate::RowLogs;
use std::alloc::{AllocError, Global};
use std::test::Fail;

// Three logs, which came one after another.
fn three(alloc: Global, a: u64, b: u64, c: u64) -> Result<RowLogs<u64>, AllocError>
    ensures { IfOk result (λ logs. logs.items ≡ a ∷ b ∷ c ∷ []) }
{
    let mut logs = RowLogs::new(alloc);
    logs.reserve_one()?;
    logs.push_reserved(a);
    logs.reserve_one()?;
    logs.push_reserved(b);
    logs.reserve_one()?;
    logs.push_reserved(c);
    Ok(logs)
}

// Puts another log at a place.
fn put_at(logs: &mut RowLogs<u64>, n: usize, log: u64)
    requires { n < length logs.old.items }
    ensures { logs.new.items ≡ slice_set logs.old.items n log }
{
    *logs.at_mut(n) = log;
}

#[test]
fn each_log_is_found_at_its_place_and_the_newest_is_taken_first(
    rt: HostRuntime,
) -> Result<(), Fail> {
    let mut logs = three(rt.alloc(), 7, 8, 9)?;
    put_at(&mut logs, 0, 17);
    put_at(&mut logs, 2, 19);
    assert_eq!(rt; logs.len(), 3);
    assert_eq!(rt; *logs.at(0), 17);
    assert_eq!(rt; *logs.at(1), 8);
    assert_eq!(rt; *logs.at(2), 19);
    assert_eq!(rt; logs.pop(), Some(19));
    assert_eq!(rt; logs.pop(), Some(8));
    assert_eq!(rt; logs.pop(), Some(17));
    assert_eq!(rt; logs.pop(), None);
    logs.destroy_empty();
    Ok(())
}
