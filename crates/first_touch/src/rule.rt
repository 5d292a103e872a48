//! The rule of the pages, and the atomic steps.
ghost use Rattle.first_touch.specs.Pages.{Holds, first_view, looks, claims, puts_back, publishes, walks};

use crate::source::Source;
use crate::view::View;
use atomic_table::{Play, TableRule};

/// The rule: a page whose word is 0 waits in its slot, with room for its words; who has a page finds its word 1, and is
/// the only one who has it; who knows that a page is home finds its word 2; and a word is 2 only if a thread knows it.
pub struct PageRule;

impl<'m> TableRule<Option<&'m mut [u64]>, View, Source<'m>> for PageRule {
    ghost holds = { Holds };

    ghost first = { first_view };
}

/// Looks whether a page is home, by a load.
pub struct Look;

impl<'m> Play<Option<&'m mut [u64]>, View> for Look {
    ghost then = { looks };
}

/// Takes a page that nobody has, by an exchange.
pub struct Claim;

impl<'m> Play<Option<&'m mut [u64]>, View> for Claim {
    ghost then = { claims };
}

/// Puts a page back that was not built, by a store.
pub struct PutBack;

impl<'m> Play<Option<&'m mut [u64]>, View> for PutBack {
    ghost then = { puts_back };
}

/// Says that a page is home, by a store.
pub struct Publish;

impl<'m> Play<Option<&'m mut [u64]>, View> for Publish {
    ghost then = { publishes };
}

/// Looks at the pages one after the other.
pub struct Walk;

impl<'m> Play<Option<&'m mut [u64]>, View> for Walk {
    ghost then = { walks };
}
