//! The vector of the near numbers.

ghost use Rattle.std.specs.Prelude.{◌≡◌, ℕ, ◌+◌, ◌^◌, ◌<◌, Some, None, nat_eq, max, length, get_or, OnOk, IfErr, OnErr, if◌then◌else◌};

/// Puts a value at a place, up to which the vector grows where it ends before it. After want of memory the value
/// comes back, and the vector is as before. Time: one step for each place that is new, and amortized no more.
pub fn put_at<T>(near: &mut Vec<Option<T>>, place: usize, value: T) -> Result<(), T>
where
    T: Drop,
    requires small { place < 2 ^ 63 }
    ensures long { OnOk result (length near.new.items ≡ max (length near.old.items) (place + 1)) }
    ensures put { OnOk result ((m : ℕ) → get_or near.new.items m None
        ≡ (if nat_eq m place then Some value else get_or near.old.items m None)) }
    ensures value_returned { IfErr result (λ back. back ≡ value) }
    ensures unchanged { OnErr result (near.new.items ≡ near.old.items) }
{
    let len = near.len();
    if place < len {
        near[place] = Some(value);
        return Ok(());
    }
    if near.reserve(place - len + 1).is_err() {
        return Err(value);
    }
    for _place in len..place {
        near.push_reserved(None);
    }
    near.push_reserved(Some(value));
    Ok(())
}
