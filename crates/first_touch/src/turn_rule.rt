//! The rule of the turns, and the atomic steps.
ghost use Rattle.first_touch.specs.Turning.{Holds, first_view, looks, claims, puts_back, publishes, walks};

use crate::turn_view::TurnView;
use atomic_table::{Play, TableRule};

/// The rule: who has a page finds its word 1, and is the only one who has it; who knows that a page is home finds its
/// word 2; and a word is 2 only if a thread knows it.
pub struct TurnRule;

impl TableRule<(), TurnView, u64> for TurnRule {
    ghost holds = { Holds };

    ghost first = { first_view };
}

/// Looks whether a page is home, by a load.
pub struct LookTurn;

impl Play<(), TurnView> for LookTurn {
    ghost then = { looks };
}

/// Takes a page that nobody has, by an exchange.
pub struct ClaimTurn;

impl Play<(), TurnView> for ClaimTurn {
    ghost then = { claims };
}

/// Puts a page back that was not built, by a store.
pub struct PutBackTurn;

impl Play<(), TurnView> for PutBackTurn {
    ghost then = { puts_back };
}

/// Says that a page is home, by a store.
pub struct PublishTurn;

impl Play<(), TurnView> for PublishTurn {
    ghost then = { publishes };
}

/// Looks at the pages one after the other.
pub struct WalkTurn;

impl Play<(), TurnView> for WalkTurn {
    ghost then = { walks };
}
