//! What of a heap is found.
ghost use Rattle.std.specs.Prelude.{◌≡◌};
ghost use Rattle.mark_job.specs.Asked.{Asked, IsMarkedOf};
ghost use Rattle.rest_marks.specs.Places.{Found};

/// Of a heap there is one answer, but for the room of its tables. So whoever helped, and whether anyone did, the same
/// objects are found, and each word leads to the same place.
pub fn found_is_one()
    ensures { (asked : Asked) (found other : Found) → IsMarkedOf asked found → IsMarkedOf asked other
        → (found.edition ≡ other.edition) × (found.count ≡ other.count) × (found.marks ≡ other.marks) × (found.indices ≡ other.indices) }
{}
