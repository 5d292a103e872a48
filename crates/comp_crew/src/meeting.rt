//! The meeting of two members.
ghost use Rattle.std.specs.Prelude.{◌≡◌, ◌≢◌, ℕ, IsFalse, IsTrue};
ghost use Rattle.cell_steps.specs.Passes.{lost, seen};
ghost use Rattle.cell_steps.specs.Setup as setups;
ghost use Rattle.page_cells.specs.Calls.{Meets};
ghost use Rattle.comp_crew.specs.Members.{crew_of, made_of, name_of, pass_of, setup_of, AreToldApart, IsMember};

use crate::member::Member;

impl Member {
    /// Lets two members of one crew meet: each has then seen what the other has seen, and knows what the other knew.
    /// What they wrote, made and built is unchanged. The call takes no memory and does not wait. Each of the two loads
    /// the state word of page 0, and loses a step there if it finds another member's number in it. If there are no
    /// pages, neither loses a step. The answer is false, and nothing has changed, if they are of two crews.
    ///
    /// Requires that the names tell crews apart.
    pub fn meet(&mut self, other: &mut Member) -> bool
        requires of { IsMember self.old × IsMember other.old }
        requires apart { AreToldApart self.old other.old }
        ensures of { IsMember self.new × IsMember other.new }
        ensures crew { (crew_of self.new ≡ crew_of self.old) × (crew_of other.new ≡ crew_of other.old) }
        ensures made { (made_of self.new ≡ made_of self.old) × (made_of other.new ≡ made_of other.old) }
        ensures met { IsTrue result → Meets (pass_of other.old) (pass_of self.old) (pass_of self.new) × Meets (pass_of self.old) (pass_of other.old) (pass_of other.new) }
        ensures same { IsTrue result → (p : ℕ) → seen (pass_of self.new) p ≡ seen (pass_of other.new) p }
        ensures lost { IsTrue result → (p : ℕ) → (p ≡ 0 → setups.pages (setup_of self.old) ≡ 0) → (lost (pass_of self.new) p ≡ lost (pass_of self.old) p) × (lost (pass_of other.new) p ≡ lost (pass_of other.old) p) }
        ensures apart { IsFalse result → (name_of self.old ≢ name_of other.old) × (self.new ≡ self.old) × (other.new ≡ other.old) }
    {
        if self.crew_name() != other.crew_name() {
            return false;
        }
        let Member { crew, hand } = self;
        let Member {
            crew: _,
            hand: others,
        } = other;
        hand.meet(&crew.cells, others);
        true
    }
}
