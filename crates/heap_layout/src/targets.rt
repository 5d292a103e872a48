//! Sets of objects, as one bit for each from-space word, which is set if one of the objects starts there. They answer
//! in constant time whether a word leads to one of them.
ghost use Rattle.std.specs.Prelude.{◌≡◌, ◌≢◌, ℕ, ◌*◌, ◌^◌, ◌<◌, ◌≤◌, false, [], All, length};
ghost use Rattle.std.specs.List.{flat_map};
ghost use Rattle.heap_layout.specs.Bits.{bit, leads};
ghost use Rattle.heap_layout.specs.Values.{or_immediate};
ghost use Rattle.heap_layout.specs.Heap.{is_target, starts};
ghost use Rattle.heap_layout.specs.Faults.{object_faults};

use crate::bits::{is_set, set};
use crate::edition::Edition;
use crate::header::Header;
use crate::limits::FROM_SPACE;

// Takes all objects out.
fn clear(bits: &mut [u64])
    ensures length { length bits.new ≡ length bits.old }
    ensures none { (i : ℕ) → bit bits.new i ≡ false }
{
    bits.fill(0);
}

/// Puts the objects at these marks in place of those before. There must be a bit for each mark.
pub fn put_marks(bits: &mut [u64], marks: &[u32])
    requires { All (λ mark. mark < 64 * length bits.old) marks.now }
    ensures length { length bits.new ≡ length bits.old }
    ensures marks { leads bits.new ≡ is_target marks.now }
{
    clear(bits);
    for &mark in marks {
        set(bits, mark as usize);
    }
}

/// Puts all objects of these words in place of those before. There must be a bit for each word, and the words must be
/// objects side by side, without gaps.
pub fn put_row(bits: &mut [u64], edition: Edition, words: &[u64])
    requires few { length words.now ≤ 2 ^ 31 }
    requires room { length words.now ≤ 64 * length bits.old }
    requires row { flat_map (object_faults edition words.now) (starts edition words.now) ≡ [] }
    ensures length { length bits.new ≡ length bits.old }
    ensures row { leads bits.new ≡ is_target (starts edition words.now) }
{
    clear(bits);
    let mut start = 0;
    while start < words.len() {
        set(bits, start);
        start += Header::from_word_of(edition, words[start]).size() as usize;
    }
}

/// Whether a root, a reference or a weak word of a heap of this edition is null, the address of one of the objects, or
/// an immediate. There must be some bits, and no more than for the words of the largest heap.
pub fn holds(bits: &[u64], edition: Edition, word: u64) -> bool
    requires some { 0 < length bits.now }
    requires few { length bits.now ≤ 2 ^ 26 }
    ensures { result ≡ or_immediate edition (leads bits.now) word }
{
    edition.is_immediate(word) | has(bits, word)
}

// Whether a word is null or the address of one of the objects. There must be some bits, and no more than for the words
// of the largest heap.
fn has(bits: &[u64], reference: u64) -> bool
    requires some { 0 < length bits.now }
    requires few { length bits.now ≤ 2 ^ 26 }
    ensures { result ≡ leads bits.now reference }
{
    // This does not branch on null: null is about as frequent as not.
    let i = reference.wrapping_sub(FROM_SPACE);
    let inside = i / 64 < bits.len() as u64;
    let at = if inside { i as usize } else { 0 };
    let there = is_set(bits, at);
    (reference == 0) | (inside & there)
}
