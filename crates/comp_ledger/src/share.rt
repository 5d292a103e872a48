ghost use Rattle.std.specs.Prelude.{◌≡◌};

use heap_layout::Numbered;
use std::sync::ledger::{Ledger as Named, Share as Token};

/// A share of a ledger. Its owner, a thread that makes objects, posts words with it. It records how many words were
/// posted with it.
#[derive(Drop)]
pub struct Share<L: Named> {
    pub(crate) number: u8,
    pub(crate) posted: u64,
    pub(crate) token: Token<L>,
    ghost one: { token.parts ≡ 1 },
    ghost counted: { posted ≡ token.amount },
}

impl<L: Named> Numbered for Share<L> {
    ghost number_of = { λ share. share.number };

    fn number(&self) -> u8 {
        Share::number(self)
    }
}

impl<L: Named> Share<L> {
    ghost use Rattle.comp_ledger.specs.Shares.{number_of, posted_of};

    /// The share's number. The shares of a ledger are numbered from 0.
    pub fn number(&self) -> u8
        ensures { result ≡ number_of self.now }
    {
        self.number
    }

    /// How many words were posted with this share.
    pub fn posted(&self) -> u64
        ensures { result ≡ posted_of self.now }
    {
        self.posted
    }
}
