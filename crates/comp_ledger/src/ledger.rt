ghost use Rattle.std.specs.Prelude.{◌≡◌, ◌↔◌, ◌+◌, ◌^◌, ◌<◌, ◌≤◌, All, Err, IfOk, IfErr, IsErr, OnOk, OnErr, length, sum};
ghost use Rattle.std.specs.List.{range_with_len};

use crate::fault::LedgerFault;
use crate::gathering::{last_within, merged};
use crate::posted::Posted;
use crate::share::Share;
use heap_layout::{OutOfMemory, least_missing};
use std::alloc::Global;
use std::sync::ledger::{Blank, Ledger as Named};
use std::sync::{Mutex, Wait};

/// The count of live words: those at the start, and those posted since with the ledger's shares. It never exceeds the
/// capacity.
///
/// `L` names the ledger and its shares: a share can be posted with at no other ledger.
#[derive(Drop)]
pub struct Ledger<L: Named> {
    pub(crate) live: u64,
    // The capacity minus the words at the start: at most this many words may be posted in all.
    pub(crate) room: u64,
    pub(crate) shares: u8,
    posted: Mutex<Posted<L>>,
    ghost fits: { live + room < 2 ^ 64 },
    ghost some: { 1 ≤ shares },
}

/// A refused `gather`: the cause, and the ledger and the shares as they were handed in.
#[derive(Drop)]
pub struct NotGathered<L: Named> {
    /// Why it was refused.
    pub fault: LedgerFault,
    /// The ledger, unchanged.
    pub ledger: Ledger<L>,
    /// The shares that were handed in, unchanged.
    pub shares: Vec<Share<L>>,
}

impl<L: Named> Ledger<L> {
    ghost use Rattle.comp_ledger.specs.Ledgers.{capacity_of, live_of, share_count, GatherRefused};
    ghost use Rattle.comp_ledger.specs.Shares.{number_of, numbers_of, posted_of, total_posted, NoneMissing};
    ghost use Rattle.comp_ledger.specs.declared.fault.LedgerFault.TheVariants.{OverCapacity};

    /// Makes a ledger of `live` words, with this capacity in words, and its `n` shares. Share k stands at index k, and
    /// nothing is posted with it yet. The only refusal is out of memory.
    ///
    /// Requires the blank of the ledger that `L` names, with one part for each share; at least one share, since
    /// `gather` merges all shares into one; and `live` within the capacity.
    pub fn new(
        alloc: Global,
        blank: Blank,
        live: u64,
        capacity: u64,
        n: u8,
    ) -> Result<(Ledger<L>, Vec<Share<L>>), OutOfMemory>
        requires name { blank.name ≡ L.name }
        requires parts { blank.parts ≡ L.parts }
        requires count { blank.parts ≡ n }
        requires some { 1 ≤ n }
        requires fits { live ≤ capacity }
        ensures live { IfOk result (λ made. live_of made.0 ≡ live) }
        ensures capacity { IfOk result (λ made. capacity_of made.0 ≡ capacity) }
        ensures count { IfOk result (λ made. share_count made.0 ≡ n) }
        ensures numbers { IfOk result (λ made. numbers_of made.1.items ≡ range_with_len 0 n) }
        ensures unposted { IfOk result (λ made. All (λ share. posted_of share ≡ 0) made.1.items) }
    {
        let mut shares = Vec::with_capacity(alloc, usize::from(n))?;
        let (book, mut rest) = blank.open::<L>();
        for number in 0..n {
            let token = rest.split_off(1, 0);
            shares.push_reserved(Share {
                number,
                posted: 0,
                token,
            });
        }
        let ledger = Ledger {
            live,
            room: capacity - live,
            shares: n,
            posted: Mutex::new(Posted::new(book)),
        };
        Ok((ledger, shares))
    }

    /// How many shares were made.
    pub fn count(&self) -> u8
        ensures { result ≡ share_count self.now }
    {
        self.shares
    }

    /// Posts the words of objects that the owner of this share made. It waits for the ledger's lock.
    ///
    /// The only refusal is `OverCapacity`: the words at the start, all words posted so far and these words together
    /// exceed the capacity. Then nothing is posted. The contract does not say what was posted with other shares, so a
    /// caller can foresee the answer only if there is one share.
    pub fn post<R: Wait>(&self, rt: &R, share: &mut Share<L>, words: u64) -> Result<(), LedgerFault>
        ensures number { number_of share.new ≡ number_of share.old }

        ensures posted { OnOk result (posted_of share.new ≡ posted_of share.old + words) }
        ensures within { OnOk result (live_of self.now + posted_of share.new ≤ capacity_of self.now) }

        ensures fault { OnErr result (result ≡ Err OverCapacity) }
        ensures refused { OnErr result (posted_of share.new ≡ posted_of share.old) }

        // The only share of a ledger is refused if and only if the total would exceed the capacity.
        ensures alone { L.parts ≡ 1 →
            (IsErr result ↔ (capacity_of self.now < live_of self.now + posted_of share.old + words)) }
    {
        self.posted.lock(rt).post(self.room, share, words)
    }

    /// Posts the words of objects that the owner of this share made, and is never refused. It waits for the ledger's
    /// lock.
    ///
    /// Requires that these words, those posted with this share and those at the start are within the capacity. What was
    /// posted with other shares is not looked at: this is for callers that know by other means that all words together
    /// are within the capacity. `gather` tests it.
    pub fn post_fitting<R: Wait>(&self, rt: &R, share: &mut Share<L>, words: u64)
        requires { live_of self.now + posted_of share.old + words ≤ capacity_of self.now }
        ensures number { number_of share.new ≡ number_of share.old }
        ensures posted { posted_of share.new ≡ posted_of share.old + words }
    {
        self.posted.lock(rt).add(share, words)
    }

    /// Ends the ledger: takes back all shares, posts the last words, one number for each share given, and answers the
    /// total of live words. It owns the ledger, so it does not wait.
    ///
    /// Refusals: `ShareMissing` has the least missing number, and is tested first. `OverCapacity` means that the total
    /// would exceed the capacity. After either refusal nothing is posted, and the ledger and the shares are handed back
    /// unchanged.
    ///
    /// Requires one number in `last` for each share given, and that the ledger has as many shares as `L` has parts
    /// (`whole`). The caller of `new` knows this from the contract of `new`. The type cannot keep it: a ghost field
    /// next to a share of `L` must not mention `L`.
    pub fn gather(self, shares: Vec<Share<L>>, last: &[u64]) -> Result<u64, NotGathered<L>>
        requires whole { share_count self ≡ L.parts }
        requires last { length last.now ≡ length shares.items }

        ensures sum { IfOk result (λ words. words ≡ live_of self + total_posted shares.items + sum last.now) }
        ensures within { IfOk result (λ words. words ≤ capacity_of self) }
        ensures all { OnOk result (NoneMissing (share_count self) shares.items) }

        ensures fault { IfErr result (λ left. GatherRefused self shares.items last.now left.fault) }
        ensures ledger { IfErr result (λ left. left.ledger ≡ self) }
        ensures shares { IfErr result (λ left. left.shares.items ≡ shares.items) }
    {
        if let Some(number) = least_missing(&shares, self.shares) {
            return Err(NotGathered {
                fault: LedgerFault::ShareMissing(number),
                ledger: self,
                shares,
            });
        }
        let Some(last) = last_within(self.room, &shares, last) else {
            return Err(NotGathered {
                fault: LedgerFault::OverCapacity,
                ledger: self,
                shares,
            });
        };
        let Ledger {
            live,
            room: _,
            shares: _,
            posted,
        } = self;
        Ok(live + posted.into_inner().end(merged(shares), last))
    }
}
