//! The meeting of two hands.
ghost use Rattle.std.specs.Prelude.{◌≡◌, ℕ};
ghost use Rattle.cell_steps.specs.Setup.{pages};
ghost use Rattle.cell_steps.specs.Passes.{lost, seen};
ghost use Rattle.page_cells.specs.CellViews.{setup_of};
ghost use Rattle.page_cells.specs.Calls.{Meets};
ghost use Rattle.comp_access.specs.Hands.{made_of, pass_of, IsHandOf};

use crate::hand::Hand;
use page_cells::Cells;
use page_plan::Builder;

impl Hand {
    /// Lets two hands meet: each has then seen what the other has seen, and knows what the other knew. What they wrote,
    /// made and built is unchanged. The call always succeeds, takes no memory and does not wait. Each of the two loads
    /// the state word of page 0, and loses a step there if it finds another hand's number in it. If there are no pages,
    /// neither loses a step. Requires the cells of both hands.
    pub fn meet<B: Builder>(&mut self, cells: &Cells<B>, other: &mut Hand)
        requires of { IsHandOf cells.now self.old × IsHandOf cells.now other.old }
        ensures of { IsHandOf cells.now self.new × IsHandOf cells.now other.new }
        ensures made { (made_of self.new ≡ made_of self.old) × (made_of other.new ≡ made_of other.old) }
        ensures met { Meets (pass_of other.old) (pass_of self.old) (pass_of self.new) }
        ensures other { Meets (pass_of self.old) (pass_of other.old) (pass_of other.new) }
        ensures same { (p : ℕ) → seen (pass_of self.new) p ≡ seen (pass_of other.new) p }
        ensures lost { (p : ℕ) → (p ≡ 0 → pages (setup_of cells.now) ≡ 0) → (lost (pass_of self.new) p ≡ lost (pass_of self.old) p) × (lost (pass_of other.new) p ≡ lost (pass_of other.old) p) }
    {
        let Hand {
            pass: first,
            fills: _,
            lows: _,
            made: _,
        } = self;
        let Hand {
            pass: second,
            fills: _,
            lows: _,
            made: _,
        } = other;
        cells.meet(first, second);
    }
}
