//! The counts of the flip whose end this is.
ghost use Rattle.std.specs.Prelude.{◌≡◌};
ghost use Rattle.comp_crew.specs.Finishing.{setup_at_end, IsEnded};

use crate::finishing::Ended;

impl Ended {
    /// The number of mutators, 1 to 64. Requires what `finish` ensures.
    pub fn mutators(&self) -> u8
        requires { IsEnded self.now }
        ensures { result ≡ (setup_at_end self.now).mutators }
    {
        self.finished.builds().len() as u8
    }

    /// The number of fresh pages. Requires what `finish` ensures.
    #[tactic(auto, using(heap_layout::proofs::Bounds::fresh_pages_most))]
    pub fn fresh_pages(&self) -> u32
        requires { IsEnded self.now }
        ensures { result ≡ (setup_at_end self.now).fresh }
    {
        (self.finished.pages().len() as u64 - self.plan.pages()) as u32
    }
}
