//! Laws of the places and the sizes of a log, which hold of their definitions. The crates above cite them.

ghost use Rattle.std.specs.Prelude.{◌≡◌, ℕ, ◌+◌, ◌*◌, ◌≤◌, List, ◌∷◌, length};
ghost use Rattle.edge_log.specs.declared.place.Place.{Place};
ghost use Rattle.edge_log.specs.Entries.{Entry, sizes, payload_sum, fresh_entry, converted, cleared};
ghost use Rattle.edge_log.specs.Places.{oldest, ended_at, IsPlaceIn};

/// A place of a log stays one while entries are appended, while stamps are set and while they are committed.
/// One that is not above the committed entries stays one while what is private is given up.
pub fn a_place_stays()
    ensures appended { (xs : List Entry) (place : Place) (d : ℕ) (p : List ℕ) (t : ℕ)
        → IsPlaceIn xs place → IsPlaceIn (fresh_entry d p t ∷ xs) place }
    ensures ended { (xs : List Entry) (place : Place) (n t : ℕ)
        → IsPlaceIn xs place → IsPlaceIn (ended_at xs n t) place }
    ensures committed { (xs : List Entry) (place : Place) (t e : ℕ)
        → IsPlaceIn xs place → IsPlaceIn (converted t e xs) place }
    ensures undone { (xs : List Entry) (place : Place) (t n : ℕ) → place.below ≤ n → n ≤ length xs
        → IsPlaceIn xs place → IsPlaceIn (cleared t (oldest n xs)) place }
{}

/// The entries of a log take 28 bytes each, and their payloads.
pub fn sizes_are_headers_and_payloads()
    ensures { (xs : List Entry) → sizes xs ≡ 28 * length xs + payload_sum xs }
{}
