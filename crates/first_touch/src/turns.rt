//! The turns, from their beginning to their end: who builds which page, where both spaces lie with the caller.
ghost use Rattle.std.specs.Prelude.{◌≡◌, ◌<◌, length, IfErr, IfOk, OnOk};
ghost use Rattle.first_touch.specs.Asked.{slid_page, IsCut};
ghost use Rattle.first_touch.specs.Beginning.{AreBegun, AreNotBegun};
ghost use Rattle.first_touch.specs.Seen.{asked_of, page_id, IsPutBack, IsSeenAway};
ghost use Rattle.first_touch.specs.TurnAnswers.{IsNotHad, IsNotFilled, IsAsItWas};

use crate::not_begun::{BeginFault, NotBegunTurns};
use crate::rows::page_size;
use crate::turn::{Filled, HomeTurn, Turn, TurnSight};
use crate::turn_view::TurnView;
use crate::turn_words::TurnWords;
use atomic_table::Seat;
use std::alloc::Global;
use std::marker::Model;
use std::snapshot::Snapshot;
use std::sync::Arc;
use stopped_heap::{Places, SlideFault};

/// Why a call did not get a page, in the order in which it looks. The turns are as they were.
#[derive(Drop)]
pub enum NotHad {
    /// There is no page of this number.
    NoSuchPage,
    /// It is home.
    Home(HomeTurn),
    /// Another thread has it, or had it a moment ago: when this thread looked, it did not wait. Ask again.
    Busy(TurnSight),
}

/// Why a page was not built, in the order in which the call looks.
#[derive(Clone, Copy, Debug, PartialEq, Eq)]
pub enum TurnFault {
    /// The page has so many words, and not as many as were lent. The memory is as it was.
    OtherRoom(u64),
    /// The words of from-space are not those of the survey, for this reason. After `OtherCount` the memory is as it
    /// was, and otherwise some of its words are written.
    Slide(SlideFault),
}

/// A page that was not built: why, and what this thread saw at the step at which it put the page back. The turn is
/// gone, and from that step on the page waits again, for any thread.
#[derive(Drop)]
pub struct NotFilled {
    pub fault: TurnFault,
    pub sight: TurnSight,
}

/// The knowledge that all pages of turns are home, and stay so. It takes no memory. Contracts see which turns.
#[derive(Drop)]
pub struct AllHome {
    pub(crate) seat: Option<Seat<(), TurnView>>,
    pub(crate) turns: Snapshot<Turns>,
}

impl Model for AllHome {
    ghost use Rattle.atomic_table.specs.Seated.{TableId};
    ghost use Rattle.first_touch.specs.Homes.{AreAllHome};

    ghost Value = { TableId };

    ghost view = { λ home. home.turns.value.id };

    ghost invariant = { λ home. AreAllHome (λ view. view.known) home.turns.value.id home.seat };
}

/// This page was not home when this thread looked.
#[derive(Drop)]
pub struct NotHome {
    pub page: usize,
    pub sight: TurnSight,
}

/// Turns that were ended: all their pages are home. Contracts see the turns as they were.
#[derive(Drop)]
pub struct EndedTurns {
    pub(crate) places: Arc<Places>,
    pub(crate) seat: Option<Seat<(), TurnView>>,
    pub(crate) turns: Snapshot<Turns>,
}

impl Model for EndedTurns {
    ghost use Rattle.std.specs.Prelude.{◌≡◌};
    ghost use Rattle.first_touch.specs.Seen.{TurnDesk};
    ghost use Rattle.first_touch.specs.Homes.{AreAllHome};

    ghost Value = { TurnDesk };

    ghost view = { λ ended. ended.turns.value };

    ghost invariant = { λ ended. (ended.places.value ≡ ended.turns.value.found)
        × AreAllHome (λ view. view.known) ended.turns.value.id ended.seat };
}

impl EndedTurns {
    /// The share of what the survey found.
    pub fn into_places(self) -> Arc<Places>
        ensures { result.value ≡ self.found }
    {
        let EndedTurns {
            places,
            seat,
            turns: _,
        } = self;
        drop(seat);
        places
    }
}

/// Turns that are not ended, since this page was not home when this thread looked. They are as they were.
#[derive(Drop)]
pub struct NotEndedTurns {
    pub page: usize,
    pub turns: Turns,
    pub sight: TurnSight,
}

/// Who builds which page of a slide. It has a share of what the survey found, and nothing of from-space nor of
/// to-space: the caller lends words and page to each build. Threads may share it, by reference or in an `Arc`.
/// Contracts see what the survey found, how many words a page has, how many pages there are, and which turns they are.
#[derive(Drop)]
pub struct Turns {
    pub(crate) places: Arc<Places>,
    pub(crate) size: usize,
    pub(crate) words: TurnWords,
}

impl Model for Turns {
    ghost use Rattle.std.specs.Prelude.{length};
    ghost use Rattle.first_touch.specs.Asked.{IsCut};
    ghost use Rattle.first_touch.specs.Seen.{TurnDesk};
    ghost use Rattle.first_touch.specs.Tables.{words_id};

    ghost Value = { TurnDesk };

    ghost view = { λ turns. record {
      found = turns.places.value;
      size = turns.size;
      pages = (words_id turns.words).words;
      id = words_id turns.words;
    } };

    ghost invariant = { λ turns. IsCut (length turns.places.value.indices) turns.size (words_id turns.words).words };
}

// How many pages of this size so many words have.
fn count_pages(live: usize, size: usize) -> usize
    requires { 0 < size }
    ensures { IsCut live size result }
{
    if live % size == 0 {
        live / size
    } else {
        live / size + 1
    }
}

impl Turns {
    /// Begins to slide a heap of which the survey found this, in pages of so many words. It takes 8 bytes a page, and
    /// as many more until it returns. Err if a page has no words, or if memory runs out, in this order; then the share
    /// of what was found comes back.
    pub fn begin(alloc: Global, places: Arc<Places>, size: usize) -> Result<Turns, NotBegunTurns>
        ensures begun { IfOk result (AreBegun places.value size) }
        ensures refused { IfErr result (AreNotBegun places.value size) }
    {
        if size == 0 {
            let fault = BeginFault::NoSize;
            return Err(NotBegunTurns { fault, places });
        }
        let pages = count_pages((&*places).live_words() as usize, size);
        match TurnWords::new(alloc, pages) {
            Ok(words) => Ok(Turns {
                places,
                size,
                words,
            }),
            Err(_) => {
                let fault = BeginFault::OutOfMemory;
                Err(NotBegunTurns { fault, places })
            }
        }
    }

    /// Begins turns that threads share. It takes a few bytes more, and is refused like `begin`.
    pub fn begin_shared(
        alloc: Global,
        places: Arc<Places>,
        size: usize,
    ) -> Result<Arc<Turns>, NotBegunTurns>
        ensures begun { IfOk result (λ turns. AreBegun places.value size turns.value) }
        ensures refused { IfErr result (AreNotBegun places.value size) }
    {
        let turns = match Turns::begin(alloc, places, size) {
            Ok(turns) => turns,
            Err(refused) => return Err(refused),
        };
        match Arc::new(alloc, turns) {
            Ok(turns) => Ok(turns),
            Err(left) => {
                let Turns {
                    places,
                    size: _,
                    words,
                } = left.value;
                drop(words);
                let fault = BeginFault::OutOfMemory;
                Err(NotBegunTurns { fault, places })
            }
        }
    }

    /// How many pages there are.
    pub fn count(&self) -> usize
        ensures { result ≡ self.now.pages }
    {
        self.words.count()
    }

    /// Takes the turn for a page, which this thread then has alone. Any threads may call it at the same time. It tries
    /// once. Err if there is no such page, if it is home, or if another thread has it, in this order. The turns are
    /// then as they were.
    pub fn claim(&self, page: usize) -> Result<Turn, NotHad>
        ensures inside { OnOk result (page < self.now.pages) }
        ensures turn { IfOk result (λ turn. turn ≡ page_id self.now.id page) }
        ensures refused { IfErr result (IsNotHad self.now page) }
    {
        if page >= self.count() {
            return Err(NotHad::NoSuchPage);
        }
        let (found, seat) = self.words.look(page);
        if found == 2 {
            return Err(NotHad::Home(HomeTurn { seat }));
        }
        match self.words.claim(seat, page) {
            Ok(seat) => Ok(Turn { seat, k: page }),
            Err(sight) => Err(NotHad::Busy(sight)),
        }
    }

    // Puts the page back for which this is the turn, for this reason.
    fn refuse(&self, turn: Turn, fault: TurnFault) -> NotFilled
        requires { turn.desk ≡ self.now.id }
        ensures fault { result.fault ≡ fault }
        ensures back { IsPutBack self.now.id turn.page result.sight }
    {
        let Turn { seat, k } = turn;
        let sight = self.words.put_back(seat, k);
        NotFilled { fault, sight }
    }

    /// Builds the page for which this is the turn: fills `part`, which is its memory, with the words that slide there
    /// out of `words`, which are those of from-space. Err if `part` has not as many words as the page, or if the words
    /// are not those of the survey; then the turn is gone, and the page waits again.
    pub fn build(&self, turn: Turn, words: &[u64], part: &mut [u64]) -> Result<Filled, NotFilled>
        requires { turn.desk ≡ self.now.id }
        ensures filled { IfOk result (λ filled. filled ≡ turn) }
        ensures slid { OnOk result (part.new ≡ slid_page (asked_of self.now words.now) turn.page) }
        ensures refused { IfErr result (IsNotFilled self.now words.now turn.page (length part.old)) }
        ensures stays { IfErr result (λ refused. IsAsItWas refused.fault part.old part.new) }
    {
        let live = (&*self.places).live_words() as usize;
        let first = turn.k * self.size;
        let room = page_size(self.size, live - first);
        if part.len() != room {
            return Err(self.refuse(turn, TurnFault::OtherRoom(room as u64)));
        }
        match (&*self.places).try_slide(words, first as u64, part) {
            Ok(()) => {
                let Turn { seat, k } = turn;
                Ok(Filled { seat, k })
            }
            Err(fault) => Err(self.refuse(turn, TurnFault::Slide(fault))),
        }
    }

    /// Says to all threads that a page of these turns is home.
    pub fn publish(&self, filled: Filled) -> HomeTurn
        requires { filled.desk ≡ self.now.id }
        ensures { result ≡ filled }
    {
        let Filled { seat, k } = filled;
        HomeTurn {
            seat: self.words.publish(seat, k),
        }
    }

    /// Knows that all pages are home. Err with one that was not when this thread looked. Any threads may call it at the
    /// same time.
    pub fn all_home(&self) -> Result<AllHome, NotHome>
        ensures home { IfOk result (λ home. home ≡ self.now.id) }
        ensures inside { IfErr result (λ refused. refused.page < self.now.pages) }
        ensures away { IfErr result (λ refused. IsSeenAway self.now.id refused.page refused.sight) }
    {
        match self.words.all_home() {
            Ok(seat) => {
                let turns = Snapshot::of(self);
                Ok(AllHome { seat, turns })
            }
            Err((page, sight)) => Err(NotHome { page, sight }),
        }
    }

    /// Ends turns of which all pages are known to be home.
    pub fn end_home(self, home: AllHome) -> EndedTurns
        requires { home ≡ self.id }
        ensures { result ≡ self }
    {
        let turns = Snapshot::of(&self);
        let Turns {
            places,
            size: _,
            words,
        } = self;
        drop(words);
        let AllHome { seat, turns: _ } = home;
        EndedTurns {
            places,
            seat,
            turns,
        }
    }

    /// Ends the turns, once all pages are home. Err with the turns, as they were, if a page is not home.
    pub fn end(self) -> Result<EndedTurns, NotEndedTurns>
        ensures ended { IfOk result (λ ended. ended ≡ self) }
        ensures inside { IfErr result (λ refused. refused.page < self.pages) }
        ensures away { IfErr result (λ refused. IsSeenAway self.id refused.page refused.sight) }
        ensures turns { IfErr result (λ refused. refused.turns ≡ self) }
    {
        match self.all_home() {
            Ok(home) => Ok(self.end_home(home)),
            Err(NotHome { page, sight }) => Err(NotEndedTurns {
                page,
                turns: self,
                sight,
            }),
        }
    }
}
