//! What a handle has of the pages of a slide.
ghost use Rattle.std.specs.Prelude.{◌≡◌};
ghost use Rattle.handle_base.specs.Paged.{turn_in};

use first_touch::{Filled, HomeTurn, Turn, TurnSight, Turns};
use std::sync::Arc;

/// What a handle has of the pages: at most one turn, and what it knows since its last call.
#[derive(Drop)]
pub enum Has {
    /// Nothing.
    Nothing,
    /// What it saw of a page that it did not get, or that it put back.
    Sight(TurnSight),
    /// The knowledge that a page is home.
    Home(HomeTurn),
    /// The turn for a page.
    Turn(Turn),
    /// The right to publish a page that was built.
    Filled(Filled),
}

/// A share of the turns of a slide, and what its handle has of them.
#[derive(Drop)]
pub struct Paging {
    /// The turns.
    pub turns: Arc<Turns>,
    /// What the handle has.
    pub has: Has,
}

impl Has {
    /// The page whose turn it is, built or not. None if it is no turn.
    pub fn page(&self) -> Option<usize>
        ensures { result ≡ turn_in self.now }
    {
        match self {
            Has::Turn(turn) => Some(turn.page()),
            Has::Filled(filled) => Some(filled.page()),
            _ => None,
        }
    }
}
