//! The starts of objects, and their headers.
ghost use Rattle.std.specs.Prelude.{◌≡◌, is_some, IfSome, IsTrue};
ghost use Rattle.heap_layout.specs.Heap.{live};
ghost use Rattle.page_plan.specs.Sliding.{shape_at};
ghost use Rattle.cell_steps.specs.Locks.{Journals};
ghost use Rattle.cell_steps.specs.Passes.{builds_of, KnowsStart, Rests};
ghost use Rattle.page_cells.specs.CellViews.{heap_of, setup_of, Has, IsPassOf};
ghost use Rattle.page_cells.specs.Calls.{Grows, WroteNothing};
ghost use Rattle.page_cells.specs.declared.taking.Taken.{Taken as Held};
ghost use Rattle.page_cells.specs.Objects.{HasFields};

use crate::cells::Cells;
use cell_steps::Pass;
use heap_layout::{Edition, Header};
use page_plan::{Builder, TO_SPACE};

impl<B: Builder> Cells<B> {
    /// The header of the slid object that starts at this address; None if no slid object does. It makes no atomic step.
    pub fn compacted_header(&self, address: u64) -> Option<Header>
        ensures shape { result ≡ shape_at (live (heap_of self.now)) address }
        ensures fields { IfSome result (λ header. (journals : Journals) → HasFields (setup_of self.now) journals address header) }
    {
        self.builder.plan().shape_at(address)
    }

    // Whether a slid object starts at this address. It makes no atomic step.
    fn compacted_start(&self, address: u64) -> bool
        ensures { result ≡ is_some (shape_at (live (heap_of self.now)) address) }
    {
        self.builder.plan().is_start(address)
    }

    /// The heap's edition.
    pub fn edition(&self) -> Edition
        ensures { result ≡ (setup_of self.now).heap.edition }
    {
        self.builder.plan().heap().edition()
    }

    /// Whether an object starts at this address, as far as the pass can know: the plan has the starts on compacted
    /// pages, and the start bits have those on fresh pages. If the pass knew the start before, the answer is true. It
    /// allocates no memory. Requires that the pass was made with these cells.
    pub fn start_known(&self, pass: &mut Pass, address: u64) -> bool
        requires { IsPassOf self.now pass.old }
        ensures of { IsPassOf self.now pass.new }
        ensures rests { Rests pass.old → Rests pass.new }
        ensures has { (taken : Held) → Has self.now pass.old taken → Has self.now pass.new taken }
        ensures grows { Grows pass.old pass.new × WroteNothing pass.old pass.new }
        ensures builds { builds_of pass.new ≡ builds_of pass.old }
        ensures known { IsTrue result → KnowsStart pass.new address }
        ensures unknown { KnowsStart pass.old address → IsTrue result }
    {
        if self.compacted_start(address) {
            return true;
        }
        if address < TO_SPACE {
            return false;
        }
        let word = address - TO_SPACE;
        let page = word / 64;
        if page < self.compacted || page - self.compacted >= u64::from(self.fresh) {
            return false;
        }
        let fresh = (page - self.compacted) as u32;
        let bits = self.steps.load_starts(pass, fresh);
        (bits >> (word % 64)) & 1 == 1
    }
}
