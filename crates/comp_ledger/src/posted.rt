ghost use Rattle.std.specs.Prelude.{◌≡◌, ◌↔◌, ◌+◌, ◌-◌, ◌^◌, ◌<◌, ◌≤◌, min, Err, IsErr, OnOk, OnErr};

use crate::fault::LedgerFault;
use crate::share::Share;
use std::sync::ledger::{Book, Ledger as Named, Share as Token};

/// The words posted with all shares, or 2^64 - 1 if there are more. The ledger's lock guards it.
#[derive(Drop)]
pub(crate) struct Posted<L: Named> {
    words: u64,
    book: Book<L>,
    ghost counted: { words ≡ min book.total (2 ^ 64 - 1) },
}

impl<L: Named> Posted<L> {
    ghost use Rattle.comp_ledger.specs.Shares.{number_of, posted_of};
    ghost use Rattle.comp_ledger.specs.declared.fault.LedgerFault.TheVariants.{OverCapacity};

    /// No words posted, over a book in which nothing is posted.
    pub(crate) fn new(book: Book<L>) -> Posted<L>
        requires { book.total ≡ 0 }
        ensures { result.words ≡ 0 }
    {
        Posted { words: 0, book }
    }

    /// Posts words with a share. It is refused if more than `room` words would then be posted in all; a refused call
    /// changes nothing.
    pub(crate) fn post(
        &mut self,
        room: u64,
        share: &mut Share<L>,
        words: u64,
    ) -> Result<(), LedgerFault>
        ensures number { number_of share.new ≡ number_of share.old }

        ensures posted { OnOk result (posted_of share.new ≡ posted_of share.old + words) }
        ensures more { OnOk result (self.new.words ≡ self.old.words + words) }
        ensures within { OnOk result (posted_of share.new ≤ room) }

        // It is refused if and only if there is no room. Then nothing has changed.
        ensures over { IsErr result ↔ (room < self.old.words + words) }
        ensures fault { OnErr result (result ≡ Err OverCapacity) }
        ensures refused { OnErr result (posted_of share.new ≡ posted_of share.old) }
        ensures same { OnErr result (self.new.words ≡ self.old.words) }

        // If there is only one share, all words were posted with it.
        ensures alone { L.parts ≡ 1 → self.old.words ≡ posted_of share.old }
    {
        let Posted { words: all, book } = self;
        let Share {
            number: _,
            posted,
            token,
        } = share;
        let before = *posted;
        book.audit(token);
        if *all > room || words > room - *all {
            return Err(LedgerFault::OverCapacity);
        }
        book.add(token, words);
        *all += words;
        *posted = before + words;
        Ok(())
    }

    /// Posts words with a share, whatever was posted with others. Requires that the words of the share itself fit 64
    /// bits.
    pub(crate) fn add(&mut self, share: &mut Share<L>, words: u64)
        requires { posted_of share.old + words < 2 ^ 64 }
        ensures number { number_of share.new ≡ number_of share.old }
        ensures posted { posted_of share.new ≡ posted_of share.old + words }
    {
        let Posted { words: all, book } = self;
        let Share {
            number: _,
            posted,
            token: mine,
        } = share;
        book.add(mine, words);
        *all = all.saturating_add(words);
        *posted += words;
    }

    /// Posts the last words with `all`, the merge of all shares, and answers how many words were posted in all.
    pub(crate) fn end(self, mut all: Token<L>, last: u64) -> u64
        requires whole { all.parts ≡ L.parts }
        requires some { 0 < all.parts }
        requires fits { all.amount + last < 2 ^ 64 }
        ensures { result ≡ all.amount + last }
    {
        let Posted { words, mut book } = self;
        book.audit(&mut all);
        book.add(&mut all, last);
        words + last
    }
}
