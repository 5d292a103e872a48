//! Marks the objects that stay.
ghost use Rattle.std.specs.Prelude.{◌≡◌, ℕ, ◌<◌, ◌^◌, ◌≤◌, true, false, length, slice_index, take, EachIndex, IfErr, MatchResult};
ghost use Rattle.heap_layout.specs.Bits.{bit};
ghost use Rattle.pinned_heap.specs.Around.{stays as is_pinned};
ghost use Rattle.pinned_heap.specs.Tables.{is_pin};

use crate::placing::object_of;
use heap_layout::{Edition, set};

/// Sets the bit of each pin in `stays`, in which no bit may be set. A pin must be the address of a live object, of
/// which `heads` has the bits: the first one that is not is refused, by its number, as null and an immediate are. Then
/// the bits of the pins before it are set.
pub(crate) fn pin_all(
    edition: Edition,
    heads: &[u64],
    stays: &mut [u64],
    pins: &[u64],
) -> Result<(), usize>
    requires few { length heads.now ≤ 2 ^ 25 }
    requires same { length stays.old ≡ length heads.now }
    requires none { (i : ℕ) → bit stays.old i ≡ false }
    ensures length { length stays.new ≡ length stays.old }
    ensures objects { (i : ℕ) → bit stays.new i ≡ true → bit heads.now i ≡ true }
    ensures pinned { MatchResult result (λ _. (i : ℕ) → bit stays.new i ≡ is_pinned pins.now i) (λ k. (i : ℕ) → bit stays.new i ≡ is_pinned (take k pins.now) i) }
    ensures good { MatchResult result (λ _. EachIndex pins.now (λ j. is_pin edition heads.now (slice_index pins.now j) ≡ true)) (λ k. (j : ℕ) → j < k → is_pin edition heads.now (slice_index pins.now j) ≡ true) }
    ensures known { IfErr result (λ k. k < length pins.now) }
    ensures bad { IfErr result (λ k. is_pin edition heads.now (slice_index pins.now k) ≡ false) }
{
    for (k, &pin) in pins.iter().enumerate() {
        if edition.is_immediate(pin) {
            return Err(k);
        }
        let Some(i) = object_of(heads, pin) else {
            return Err(k);
        };
        set(stays, i);
    }
    Ok(())
}
