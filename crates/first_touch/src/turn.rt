//! Turns that threads have, and what threads know of pages.
ghost use Rattle.std.specs.Prelude.{◌≡◌};

use crate::turn_view::TurnView;
use atomic_table::Seat;
use std::marker::Model;

/// The right to build a page, which this thread has alone. If this is dropped, the page never comes home. Contracts see
/// which page that is.
#[derive(Drop)]
pub struct Turn {
    pub(crate) seat: Seat<(), TurnView>,
    pub(crate) k: usize,
}

impl Model for Turn {
    ghost use Rattle.first_touch.specs.Seen.{PageId, page_id};
    ghost use Rattle.first_touch.specs.TurnHaving.{IsTurn};

    ghost Value = { PageId };

    ghost view = { λ turn. page_id turn.seat.table_id turn.k };

    ghost invariant = { λ turn. IsTurn turn.k turn.seat };
}

impl Turn {
    /// Which page that is.
    pub fn page(&self) -> usize
        ensures { result ≡ self.now.page }
    {
        self.k
    }
}

/// The right to publish a page that was built, which this thread has alone. If this is dropped, the page never comes
/// home. Contracts see which page that is.
#[derive(Drop)]
pub struct Filled {
    pub(crate) seat: Seat<(), TurnView>,
    pub(crate) k: usize,
}

impl Model for Filled {
    ghost use Rattle.first_touch.specs.Seen.{PageId, page_id};
    ghost use Rattle.first_touch.specs.TurnHaving.{IsTurn};

    ghost Value = { PageId };

    ghost view = { λ filled. page_id filled.seat.table_id filled.k };

    ghost invariant = { λ filled. IsTurn filled.k filled.seat };
}

impl Filled {
    /// Which page that is.
    pub fn page(&self) -> usize
        ensures { result ≡ self.now.page }
    {
        self.k
    }
}

/// The knowledge that a page is home, and stays so. It has no bytes. Contracts see which page that is.
#[derive(Drop)]
pub struct HomeTurn {
    pub(crate) seat: Seat<(), TurnView>,
}

impl Model for HomeTurn {
    ghost use Rattle.std.specs.Prelude.{◌≡◌};
    ghost use Rattle.first_touch.specs.Seen.{PageId, page_id};

    ghost Value = { PageId };

    ghost view = { λ home. page_id home.seat.table_id home.seat.me.0.known.page };

    ghost invariant = { λ home. home.seat.me.0.known.stand ≡ 2 };
}

/// What this thread saw of a page at a step. It says nothing of later, and has no bytes. Contracts see which page that
/// is, its word, which is 0 if it waited, 1 if a thread had it, and 2 if it was home, and whether this thread put the
/// page back at that step.
#[derive(Drop)]
pub struct TurnSight {
    pub(crate) seat: Seat<(), TurnView>,
}

impl Model for TurnSight {
    ghost use Rattle.first_touch.specs.Seen.{Seen, seen_at};

    ghost Value = { Seen };

    ghost view = { λ sight. seen_at sight.seat.table_id sight.seat.me.0.met };
}
