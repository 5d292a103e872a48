//! The rule of a deque of regions, and what each call says about it.

use crossbeam_deque::protocol::{Join, Outcome, Protocol, Split};
use crossbeam_deque::{Stealer, Worker};
use std::alloc::Global;
use std::collections::LinkedList;

/// What a pass of a deque has put and taken. Only the proof uses it: no value of it is made.
pub struct Hand {
    /// The number of ways that the owner has made.
    pub out: u64,
    /// The number of ways that came back to the owner.
    pub back: u64,
    /// 1 for a way, else 0.
    pub way: u64,
    /// The regions that were put.
    pub put: LinkedList<u64>,
    /// The regions that were taken.
    pub taken: LinkedList<u64>,
}

/// The rule of a deque: it holds each region as many times as the region was put and not taken.
pub struct Fair;

impl Protocol<u64, Hand> for Fair {
    ghost use Rattle.std.specs.Prelude.{[]};
    ghost use Rattle.comp_sweep.specs.Distributed.{hand, Distributed};

    ghost holds = { Distributed };

    ghost first = { hand 0 0 0 [] [] };

    ghost guest = { hand 0 0 0 [] [] };
}

/// A region is put.
pub struct Puts;

impl Outcome<u64, Hand> for Puts {
    ghost use Rattle.comp_sweep.specs.Distributed.{puts};

    ghost then = { puts };
}

/// The owner takes a region, or learns that there is none.
pub struct Takes;

impl Outcome<u64, Hand> for Takes {
    ghost use Rattle.comp_sweep.specs.Distributed.{takes, AllTaken};

    ghost then = { takes };

    ghost empty = { AllTaken };
}

/// A region is stolen.
pub struct Steals;

impl Outcome<u64, Hand> for Steals {
    ghost use Rattle.comp_sweep.specs.Distributed.{takes};

    ghost then = { takes };
}

/// A way is made, or comes back.
pub struct Ways;

impl Split<Hand> for Ways {
    ghost use Rattle.std.specs.Prelude.{[], ◌+◌};
    ghost use Rattle.comp_sweep.specs.Distributed.{hand};

    ghost left = { λ v. hand (v.out + 1) v.back v.way v.put v.taken };

    ghost right = { λ v. hand 0 0 1 [] [] };
}

impl Join<Hand> for Ways {
    ghost use Rattle.std.specs.Prelude.{[], ◌+◌, ◌++◌};
    ghost use Rattle.comp_sweep.specs.Distributed.{hand};

    ghost both = { λ v w. hand v.out (v.back + w.way) v.way v.put (v.taken ++ w.taken) };

    ghost spent = { hand 0 0 0 [] [] };
}

/// The owner's end of a deque.
pub type Owner = Worker<u64, Global, Hand, Fair>;

/// The end of a deque from which others steal.
pub type Thief = Stealer<u64, Global, Hand, Fair>;
