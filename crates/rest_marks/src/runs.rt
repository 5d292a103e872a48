//! Whether bits of first words and of live words, which the caller set, are runs: the live words from a first word on
//! are those of one object.
ghost use Rattle.std.specs.Prelude.{◌≡◌, ℕ, ◌+◌, ◌*◌, ◌^◌, ◌<◌, ◌≤◌, ◌⊎◌, true, length, IfSome, IfNone};
ghost use Rattle.std.specs.Int.{bit_at};
ghost use Rattle.heap_layout.specs.Bits.{bit};
ghost use Rattle.rest_marks.specs.Given.{IsOddWord};

use crate::bit_search::next_set;

// The bits of the words of a block that have a live word before them. `before` is 1 if the word before the block is
// live, else 0.
#[inline(always)]
fn behind_live(block: u64, before: u64) -> u64
    requires { before ≤ 1 }
    ensures first { bit_at result 0 ≡ before }
    ensures next { (k : ℕ) → k < 63 → bit_at result (k + 1) ≡ bit_at block k }
{
    (block << 1) | before
}

// The bits of the odd words of a block: first words that are not live, and live words that are neither first words nor
// behind a live one.
#[inline(always)]
fn odd_words(head: u64, block: u64, behind: u64) -> u64
    ensures odd { (k : ℕ) → k < 64 → bit_at result k ≡ 1 → (bit_at block k < bit_at head k) ⊎ ((bit_at head k < bit_at block k) × (bit_at behind k ≡ 0)) }
    ensures live { (k : ℕ) → k < 64 → bit_at result k ≡ 0 → bit_at head k ≤ bit_at block k }
    ensures begun { (k : ℕ) → k < 64 → bit_at result k ≡ 0 → (bit_at block k ≤ bit_at head k) ⊎ (bit_at behind k ≡ 1) }
{
    (head & !block) | (block & !head & !behind)
}

/// The index of a word that is odd, if there is one: a first word that is not live, or a live word that is neither a
/// first word nor behind a live one.
pub fn odd_word(heads: &[u64], bits: &[u64]) -> Option<usize>
    requires few { length bits.now ≤ 2 ^ 25 }
    requires same { length heads.now ≡ length bits.now }
    ensures odd { IfSome result (IsOddWord heads.now bits.now) }
    ensures live { IfNone result ((i : ℕ) → bit heads.now i ≡ true → bit bits.now i ≡ true) }
    ensures begun { IfNone result ((i : ℕ) → bit bits.now (i + 1) ≡ true → (bit heads.now (i + 1) ≡ true) ⊎ (bit bits.now i ≡ true)) }
    ensures first { IfNone result (bit bits.now 0 ≡ true → bit heads.now 0 ≡ true) }
{
    // 1 if the word before the block is live.
    let mut before = 0;
    for b in 0..bits.len() {
        let block = bits[b];
        let odd = odd_words(heads[b], block, behind_live(block, before));
        if odd != 0 {
            return Some(64 * b + odd.trailing_zeros() as usize);
        }
        before = block >> 63;
    }
    None
}

/// The index of a bit from `count` on that is set, if there is one.
pub fn bit_past(bits: &[u64], count: usize) -> Option<usize>
    requires { length bits.now ≤ 2 ^ 25 }
    ensures past { IfSome result (λ i. (bit bits.now i ≡ true) × (count ≤ i)) }
    ensures inside { IfNone result ((i : ℕ) → bit bits.now i ≡ true → i < count) }
{
    let end = 64 * bits.len();
    if count >= end {
        return None;
    }
    let next = next_set(bits, count);
    if next < end { Some(next) } else { None }
}
