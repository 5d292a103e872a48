//! Laws of the commands. Each is the contract of a function that does nothing.
ghost use Rattle.commands.specs.Laws.{DumpsAreOfRuns, RacesInventNothing, ReplaysAreOne};
ghost use Rattle.commands.specs.Successors.{AreOneLife, NextFollows, NextIsOne, TwoAreOneLife};

/// The dump that `replay` makes, page by page: a page that was built has the entries of the run that are on it, in the
/// order of their stamps, and the words that these make of its base; each page was built by the mutator that the run
/// says; and its live words are those that slid and those of the objects that the run made.
pub fn dumps_are_of_runs()
    ensures { DumpsAreOfRuns }
{}

/// The bytes of the image and of the trace and the numbers of mutators and of fresh pages determine what `replay`
/// shows and writes: the values, the whole dump, and so its bytes.
pub fn replays_are_one()
    ensures { ReplaysAreOne }
{
    heap_layout::images_differ();
}

/// The bytes of the image, of the trace, and of the marks or of the roots, if they are given, and the numbers of
/// mutators and of fresh pages determine what `next` shows and writes: the values, and the next heap, so its image and
/// its live words.
pub fn next_is_one()
    ensures { NextIsOne }
{
    heap_layout::images_differ();
    reachability::reachable_once();
}

/// Runs of `next`, each over the image that the one before left, are cycles that follow one another, and so one life of
/// a heap whose objects never move.
pub fn nexts_are_one_life()
    ensures follows { NextFollows }
    ensures life { AreOneLife }
    ensures two { TwoAreOneLife }
{
    heap_layout::images_differ();
    comp_cycles::one_life();
}

/// A race invents nothing, whether it came to its end or was stopped. There is one journal of each page, the same for
/// all mutators, and each of its entries is one that a line of its writer wrote. Each value shown is the word that
/// beginnings of these journals make. A journal for which a line was refused as full has 1,024 entries.
pub fn races_invent_nothing()
    ensures { RacesInventNothing }
{}
