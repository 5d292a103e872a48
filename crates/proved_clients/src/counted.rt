//! What a ledger counts.
ghost use Rattle.std.specs.Prelude.{◌≡◌, ◌+◌, ◌≤◌, IfSome};

use comp_ledger::Ledger;
use std::alloc::Global;
use std::sync::Wait;
use std::sync::ledger::{Blank, Ledger as Named};

/// Makes a ledger with one share, posts words with it, and gathers it with a last number of words. If all succeed, the
/// total is the sum of these words and of those at the start, and is within the capacity.
pub fn post_and_gather<L: Named, R: Wait>(
    alloc: Global,
    rt: &R,
    blank: Blank,
    live: u64,
    capacity: u64,
    words: u64,
    last: u64,
) -> Option<u64>
    requires name { blank.name ≡ L.name }
    requires parts { blank.parts ≡ L.parts }
    requires count { blank.parts ≡ 1 }
    requires fits { live ≤ capacity }
    ensures sum { IfSome result (λ total. total ≡ live + words + last) }
    ensures within { IfSome result (λ total. total ≤ capacity) }
{
    let Ok((ledger, mut shares)) = Ledger::<L>::new(alloc, blank, live, capacity, 1) else {
        return None;
    };
    if ledger.post(rt, &mut shares[0], words).is_err() {
        return None;
    }
    match ledger.gather(shares, &[last]) {
        Ok(total) => Some(total),
        Err(_) => None,
    }
}
