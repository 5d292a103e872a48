//! Which objects are claimed by one of several markers.
ghost use Rattle.std.specs.Prelude.{◌≡◌, ◌+◌, ◌/◌, length, IfOk};

use std::alloc::{AllocError, Global};
use std::sync::atomic::{AtomicU64, Ordering};

/// One bit a word of the heap, which all lanes of a marking share: the lane that sets the bit of an object claims it.
/// The bits are a hint. No proof rests on them.
#[derive(Drop)]
pub struct Claims {
    bits: Vec<AtomicU64>,
}

impl Claims {
    /// Claims of a heap of so many words: nothing is claimed.
    pub fn new(alloc: Global, count: usize) -> Result<Claims, AllocError>
        ensures { IfOk result (λ claims. length claims.bits.items ≡ (count + 63) / 64) }
    {
        let blocks = count.div_ceil(64);
        let mut bits = Vec::with_capacity(alloc, blocks)?;
        for _ in 0..blocks {
            bits.push(AtomicU64::new(0))?;
        }
        Ok(Claims { bits })
    }

    /// Claims the object at index `i`, and answers whether it was not claimed before.
    #[inline(always)]
    pub fn claim(&self, i: usize) -> bool {
        let block = i / 64;
        if block >= self.bits.len() {
            return true;
        }
        let word = &self.bits[block];
        let bit = 1u64 << (i % 64);
        if word.load(Ordering::SeqCst) & bit != 0 {
            return false;
        }
        word.fetch_or(bit, Ordering::SeqCst) & bit == 0
    }
}
