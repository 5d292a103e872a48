//! Pages that threads have, and what threads know of pages.
use crate::view::View;
use atomic_table::Seat;
use std::marker::Model;

/// A page that this thread has alone, and did not build yet.
#[derive(Drop)]
pub(crate) struct Taken<'m> {
    pub(crate) seat: Seat<Option<&'m mut [u64]>, View>,
    pub(crate) k: usize,
    pub(crate) page: &'m mut [u64],
}

/// A page that this thread has alone: it was built, and is not published yet. If this is dropped, the page never comes
/// home. Contracts see whose page it is, its number, and its words, which are always those that slide there.
#[derive(Drop)]
pub struct Built<'m> {
    pub(crate) taken: Taken<'m>,
}

impl<'m> Model for Built<'m> {
    ghost use Rattle.first_touch.specs.Seen.{BuiltPage};
    ghost use Rattle.first_touch.specs.Building.{as_built, IsBuilt};

    ghost Value = { BuiltPage };

    ghost view = { λ built. as_built built.taken };

    ghost invariant = { λ built. IsBuilt built.taken };
}

/// The knowledge that a page is home, and stays so. It has no bytes. Contracts see which page that is.
#[derive(Drop)]
pub struct Home<'m> {
    pub(crate) seat: Seat<Option<&'m mut [u64]>, View>,
}

impl<'m> Model for Home<'m> {
    ghost use Rattle.std.specs.Prelude.{◌≡◌};
    ghost use Rattle.first_touch.specs.Seen.{PageId, page_id};

    ghost Value = { PageId };

    ghost view = { λ home. page_id home.seat.table_id home.seat.me.0.known.page };

    ghost invariant = { λ home. home.seat.me.0.known.stand ≡ 2 };
}

/// What this thread saw of a page at a step. It says nothing of later, and has no bytes. Contracts see which page that
/// is, its word, which is 0 if it waited, 1 if a thread had it, and 2 if it was home, and whether this thread put the
/// page back at that step.
#[derive(Drop)]
pub struct Sight<'m> {
    pub(crate) seat: Seat<Option<&'m mut [u64]>, View>,
}

impl<'m> Model for Sight<'m> {
    ghost use Rattle.first_touch.specs.Seen.{Seen, seen_at};

    ghost Value = { Seen };

    ghost view = { λ sight. seen_at sight.seat.table_id sight.seat.me.0.met };
}

/// A page that was published, which is the caller's from now on, and the knowledge that it is home.
#[derive(Drop)]
pub struct Published<'m> {
    pub home: Home<'m>,
    pub page: &'m mut [u64],
}
