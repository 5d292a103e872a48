//! The shares that are handed in at the end: what they posted, and all of them as one.
ghost use Rattle.std.specs.Prelude.{◌≡◌, ◌+◌, ◌<◌, ◌≤◌, sum, MatchOption};
ghost use Rattle.comp_ledger.specs.Shares.{total_posted, NoneMissing};

use crate::share::Share;
use std::sync::ledger::{Ledger as Named, Share as Token};

/// The sum of the last words. None if they and the words posted with the shares together exceed `room`.
pub(crate) fn last_within<L: Named>(room: u64, shares: &[Share<L>], last: &[u64]) -> Option<u64>
    ensures sum { MatchOption result (room < total_posted shares.now + sum last.now) (λ words. words ≡ sum last.now) }
    ensures within { MatchOption result (room < total_posted shares.now + sum last.now) (λ words. total_posted shares.now + words ≤ room) }
{
    let mut left = room;
    for share in shares {
        if share.posted > left {
            return None;
        }
        left -= share.posted;
    }
    let mut sum: u64 = 0;
    for words in last {
        if *words > left - sum {
            return None;
        }
        sum += *words;
    }
    Some(sum)
}

/// Merges all shares into one. Requires that none is missing.
pub(crate) fn merged<L: Named>(mut shares: Vec<Share<L>>) -> Token<L>
    requires all { NoneMissing L.parts shares.items }
    requires some { 1 ≤ L.parts }
    ensures whole { result.parts ≡ L.parts }
    ensures amount { result.amount ≡ total_posted shares.items }
{
    let Share {
        number: _,
        posted: _,
        token: mut all,
    } = shares.pop().unwrap();
    while let Some(share) = shares.pop() {
        let Share {
            number: _,
            posted: _,
            token,
        } = share;
        all.merge(token);
    }
    all
}
