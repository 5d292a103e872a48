ghost use Rattle.std.specs.Prelude.{◌≡◌, ℕ, ◌+◌, ◌*◌, ◌^◌, ◌<◌, ◌≤◌, [], length, slice_index, sum, IfOk};
ghost use Rattle.cell_steps.specs.Passes.{builds_of, did, edition_of, number_of, view_of, Rests};
ghost use Rattle.page_cells.specs.CellViews.{setup_of, IsPassOf};
ghost use Rattle.comp_history.specs.MadeWords.{allocated};
ghost use Rattle.comp_access.specs.Allocations.{AreLow, Counts};

use crate::allocating::SIZES;
use cell_steps::Pass;
use heap_layout::{Numbered, OutOfMemory};
use page_cells::Cells;
use page_plan::Builder;
use std::alloc::Global;

/// What a mutator works with: its pass; the number of used words on each of its own fresh pages; for each object size,
/// the lowest of these pages that may have room for it; and the number of words of all objects that it allocated.
///
/// A refused call wrote no entry; but it may have built its page, unless it is `try_touch`.
#[derive(Drop)]
pub struct Hand {
    pub(crate) pass: Pass,
    pub(crate) fills: Vec<u8>,
    pub(crate) lows: [u32; SIZES],
    pub(crate) made: u64,
    ghost rests: { Rests pass },
    ghost counts: { Counts (view_of pass).about pass fills.items },
    ghost low: { AreLow fills.items lows },
    ghost bounded: { made ≤ sum fills.items },
    ghost counted: { made ≡ allocated (edition_of pass) (did pass) },
}

// A count of 0 used words for each fresh page of mutator `number`, if there are `fresh` fresh pages and `mutators`
// mutators. Its pages are `number`, `number + mutators` and so on.
fn empty_fills(alloc: Global, number: u8, fresh: u32, mutators: u8) -> Result<Vec<u8>, OutOfMemory>
    requires fresh { fresh ≤ 2 ^ 20 }
    requires some { (1 ≤ mutators) × (mutators ≤ 64) }
    ensures few { IfOk result (λ fills. length fills.items ≤ 1048576) }
    ensures zero { IfOk result (λ fills. (i : ℕ) → slice_index fills.items i ≡ 0) }
    ensures there { IfOk result (λ fills. (i : ℕ) → i < length fills.items → number + i * mutators < fresh) }
    ensures all { IfOk result (λ fills. (i : ℕ) → number + i * mutators < fresh → i < length fills.items) }
{
    let mut fills = Vec::new(alloc);
    let mut page = u32::from(number);
    while page < fresh {
        fills.reserve(1)?;
        fills.push_reserved(0);
        page += u32::from(mutators);
    }
    Ok(fills)
}

impl Numbered for Hand {
    ghost number_of = { λ hand. number_of hand.pass };

    fn number(&self) -> u8 {
        Hand::number(self)
    }
}

impl Hand {
    ghost use Rattle.comp_access.specs.Hands.{made_of, pass_of};

    /// The hand of a mutator that has done nothing. `fresh` and `mutators` are the numbers of fresh pages and of
    /// mutators of the cells. Err if out of memory.
    ///
    /// Requires a pass of these cells that wrote nothing and holds no page.
    pub fn new<B: Builder>(
        alloc: Global,
        cells: &Cells<B>,
        pass: Pass,
        fresh: u32,
        mutators: u8,
    ) -> Result<Hand, OutOfMemory>
        requires of { IsPassOf cells.now pass × Rests pass × (did pass ≡ []) }
        requires fresh { (fresh ≡ (setup_of cells.now).fresh) × (fresh ≤ 2 ^ 20) }
        requires mutators { (mutators ≡ (setup_of cells.now).mutators) × (1 ≤ mutators) × (mutators ≤ 64) }
        ensures pass { IfOk result (λ hand. pass_of hand ≡ pass) }
        ensures made { IfOk result (λ hand. made_of hand ≡ 0) }
    {
        let fills = empty_fills(alloc, pass.number(), fresh, mutators)?;
        Ok(Hand {
            pass,
            fills,
            lows: [0; SIZES],
            made: 0,
        })
    }

    /// The mutator's number.
    pub fn number(&self) -> u8
        ensures { result ≡ number_of (pass_of self.now) }
    {
        self.pass.number()
    }

    /// The pages that the mutator built, in order.
    pub fn builds(&self) -> &[u64]
        ensures { result.now ≡ builds_of (pass_of self.now) }
    {
        self.pass.builds()
    }

    /// The number of entries that the mutator wrote: one for each write and each allocation that answered Ok. Takes no
    /// memory.
    pub fn entries(&self) -> u64
        ensures { result ≡ length (did (pass_of self.now)) }
    {
        self.pass.entries()
    }

    /// The number of words of all objects that the mutator allocated. They lie on fresh pages, of which there are at
    /// most 2^20.
    pub fn made_words(&self) -> u64
        ensures made { result ≡ made_of self.now }
        ensures counted { result ≡ allocated (edition_of (pass_of self.now)) (did (pass_of self.now)) }
        ensures few { result ≤ 2 ^ 26 }
    {
        self.made
    }

    /// The pass of the mutator. It holds no page.
    pub fn into_pass(self) -> Pass
        ensures pass { result ≡ pass_of self }
        ensures rests { Rests result }
    {
        let Hand {
            pass,
            fills: _,
            lows: _,
            made: _,
        } = self;
        pass
    }
}
