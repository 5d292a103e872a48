//! Bit sets of two lanes, block by block.
ghost use Rattle.std.specs.Prelude.{◌≡◌, ℕ, ◌*◌, ◌^◌, ◌<◌, ◌≤◌, true, false, length, IfSome, IfNone};
ghost use Rattle.heap_layout.specs.Bits.{bit};
ghost use Rattle.rest_marks.specs.LaneParts.{AreBoth};

/// A bit that is set in both, if there is one.
pub fn first_common(one: &[u64], other: &[u64]) -> Option<usize>
    requires few { length one.now ≤ 2 ^ 25 }
    requires same { length one.now ≡ length other.now }
    ensures one { IfSome result (λ i. bit one.now i ≡ true) }
    ensures other { IfSome result (λ i. bit other.now i ≡ true) }
    ensures none { IfNone result ((i : ℕ) → bit one.now i ≡ true → bit other.now i ≡ false) }
{
    for b in 0..one.len() {
        let common = one[b] & other[b];
        if common != 0 {
            return Some(64 * b + common.trailing_zeros() as usize);
        }
    }
    None
}

/// A bit that is set in the first ones alone, if there is one.
pub fn first_missing(one: &[u64], other: &[u64]) -> Option<usize>
    requires few { length one.now ≤ 2 ^ 25 }
    requires same { length one.now ≡ length other.now }
    ensures one { IfSome result (λ i. bit one.now i ≡ true) }
    ensures other { IfSome result (λ i. bit other.now i ≡ false) }
    ensures none { IfNone result ((i : ℕ) → bit one.now i ≡ true → bit other.now i ≡ true) }
{
    for b in 0..one.len() {
        let missing = one[b] & !other[b];
        if missing != 0 {
            return Some(64 * b + missing.trailing_zeros() as usize);
        }
    }
    None
}

// Sets the bits of the other ones too.
fn unite(bits: &mut [u64], other: &[u64])
    requires { length bits.old ≡ length other.now }
    ensures both { AreBoth bits.old other.now bits.new }
    ensures length { length bits.new ≡ length bits.old }
{
    for b in 0..bits.len() {
        bits[b] |= other[b];
    }
}

/// The bits of both.
pub fn united(mut bits: Vec<u64>, other: Vec<u64>) -> Vec<u64>
    requires { length bits.items ≡ length other.items }
    ensures both { AreBoth bits.items other.items result.items }
    ensures length { length result.items ≡ length bits.items }
{
    unite(&mut bits, &other);
    bits
}

/// Clears bit `i`, and changes no other.
#[inline(always)]
pub fn clear(bits: &mut [u64], i: usize)
    requires { i < 64 * length bits.old }
    ensures here { bit bits.new i ≡ false }
    ensures others { (j : ℕ) → (j ≡ i → ⊥) → bit bits.new j ≡ bit bits.old j }
    ensures length { length bits.new ≡ length bits.old }
{
    bits[i / 64] &= !(1 << (i % 64));
}
