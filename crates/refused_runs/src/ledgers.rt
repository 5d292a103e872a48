//! A ledger whose shares post and are gathered. Only the making of the ledger takes memory.
ghost use Rattle.std.specs.Prelude.{◌≡◌};

use comp_ledger::{Ledger, LedgerFault};
use std::alloc::Global;
use std::marker::Brand;
use std::sync::Wait;
use std::sync::ledger::{Blank, Ledger as Named};

// Posts two words, after which no third fits. `None` if there is no memory for the ledger.
fn keeps_named<L: Named, R: Wait>(rt: &R, alloc: Global, blank: Blank) -> Option<bool>
    requires name { blank.name ≡ L.name }
    requires parts { blank.parts ≡ L.parts }
    requires count { blank.parts ≡ 1 }
{
    let Ok((ledger, mut shares)) = Ledger::<L>::new(alloc, blank, 10, 12, 1) else {
        return None;
    };
    let Some(share) = shares.first_mut() else {
        return Some(false);
    };
    let first = ledger.post(rt, share, 2);
    let second = ledger.post(rt, share, 1);
    let posted = first.is_ok() && second == Err(LedgerFault::OverCapacity);
    match ledger.gather(shares, &[0]) {
        Ok(words) => Some(posted && words == 12),
        Err(_) => Some(false),
    }
}

// Makes a ledger and posts, or `None` if there is no memory.
fn keeps_once<R: Wait>(rt: &R, alloc: Global) -> Option<bool> {
    keeps_named::<Brand, R>(rt, alloc, Blank::new(1))
}

/// Whether the ledger is as expected, made again if memory was refused.
pub fn is_kept<R: Wait>(rt: &R, alloc: Global) -> bool {
    match keeps_once(rt, alloc) {
        Some(well) => well,
        None => keeps_once(rt, alloc) == Some(true),
    }
}
