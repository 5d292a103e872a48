//! The desk, from its beginning to its end.
ghost use Rattle.std.specs.Prelude.{◌≡◌, ◌*◌, ◌<◌, ◌≤◌, drop, length, take, IfErr, IfOk, MatchOption, OnOk};
ghost use Rattle.rest_marks.specs.Places.{words_now, IsSlideFault};
ghost use Rattle.first_touch.specs.Asked.{page_len, slid_page};
ghost use Rattle.first_touch.specs.Beginning.{IsBegun, IsNotBegun};
ghost use Rattle.first_touch.specs.Seen.{built_page, page_id, IsSeenAway};
ghost use Rattle.first_touch.specs.DeskAnswers.{IsNotBuilt};
ghost use Rattle.first_touch.specs.Having.{HasPage};

use crate::built::{Built, Home, Published, Sight, Taken};
use crate::not_begun::{BeginFault, NotBegun};
use crate::pages::Pages;
use crate::source::Source;
use crate::view::View;
use atomic_table::Seat;
use std::alloc::Global;
use std::marker::Model;
use std::snapshot::Snapshot;
use stopped_heap::{Places, SlideFault};

/// Why a call did not build a page, in the order in which it looks. The desk is as it was.
#[derive(Drop)]
pub enum NotBuilt<'m> {
    /// There is no page of this number.
    NoSuchPage,
    /// It is home.
    Home(Home<'m>),
    /// Another thread has it, or had it a moment ago: when this thread looked, it did not wait. Ask again.
    Busy(Sight<'m>),
    /// It was refused, and waits again.
    Refused(Refused<'m>),
}

/// A page that was refused, since the words of from-space are not those of the survey: for which reason, and what this
/// thread saw at the step at which it put the page back. From then on the page waits again, for any thread. Some of its
/// words in to-space may be written.
#[derive(Drop)]
pub struct Refused<'m> {
    pub fault: SlideFault,
    pub sight: Sight<'m>,
}

/// A desk that was ended: all its pages are home. Contracts see the desk as it was.
#[derive(Drop)]
pub struct Ended<'m> {
    pub(crate) places: Places,
    pub(crate) seat: Option<Seat<Option<&'m mut [u64]>, View>>,
    pub(crate) desk: Snapshot<Desk<'m>>,
}

impl<'m> Model for Ended<'m> {
    ghost use Rattle.std.specs.Prelude.{◌≡◌};
    ghost use Rattle.first_touch.specs.Seen.{Desked};
    ghost use Rattle.first_touch.specs.Homes.{AreAllHome};

    ghost Value = { Desked };

    ghost view = { λ ended. ended.desk.value };

    ghost invariant = { λ ended. (ended.places ≡ ended.desk.value.asked.found)
        × AreAllHome (λ view. view.known) ended.desk.value.id ended.seat };
}

impl<'m> Ended<'m> {
    /// What the survey found.
    pub fn into_places(self) -> Places
        ensures { result ≡ self.entry.asked.found }
    {
        let Ended {
            places,
            seat,
            desk: _,
        } = self;
        drop(seat);
        places
    }
}

/// A desk that is not ended, since this page was not home when this thread looked. The desk is as it was.
#[derive(Drop)]
pub struct NotEnded<'m> {
    pub page: usize,
    pub desk: Desk<'m>,
    pub sight: Sight<'m>,
}

/// A slide of a heap out of from-space into to-space, page by page. Threads may share it, by reference or in an `Arc`.
/// Contracts see what slides, how many pages there are, and which desk it is.
#[derive(Drop)]
pub struct Desk<'m> {
    pub(crate) source: Source<'m>,
    pub(crate) pages: Pages<'m>,
}

impl<'m> Model for Desk<'m> {
    ghost use Rattle.std.specs.Prelude.{◌≡◌};
    ghost use Rattle.first_touch.specs.Asked.{IsCutIn};
    ghost use Rattle.first_touch.specs.Seen.{Desked};
    ghost use Rattle.first_touch.specs.Tables.{pages_id, pages_asked};

    ghost Value = { Desked };

    ghost view = { λ desk. record {
      asked = desk.source;
      pages = (pages_id desk.pages).words;
      id = pages_id desk.pages;
    } };

    ghost invariant = { λ desk. (pages_asked desk.pages ≡ desk.source)
        × IsCutIn desk.source (pages_id desk.pages).words };
}

// Fills a page with the words that slide there, and gives it back.
fn slide<'m>(
    places: &Places,
    words: &[u64],
    first: u64,
    page: &'m mut [u64],
) -> (Result<(), SlideFault>, &'m mut [u64])
    ensures len { length result.1.now ≡ length page.entry.now }
    ensures slid { OnOk result.0 (result.1.now
        ≡ take (length page.entry.now) (drop first (words_now places.now words.now))) }
    ensures fault { IfErr result.0 (IsSlideFault places.now words.now first (length page.entry.now)) }
{
    let tried = places.try_slide(words, first, page);
    (tried, page)
}

impl<'m> Desk<'m> {
    /// Begins to slide out of these words, of which the survey found this, into `to`, in pages of so many words. It
    /// borrows both, and writes neither. It takes 24 bytes a page, and up to 40 more until it returns. Err if a page
    /// has no words, if `to` has not as many words as slide, or if memory runs out, in this order; then what was found
    /// comes back.
    pub fn begin(
        alloc: Global,
        places: Places,
        words: &'m [u64],
        to: &'m mut [u64],
        size: usize,
    ) -> Result<Desk<'m>, NotBegun>
        ensures begun { IfOk result (IsBegun places words.now (length to.old) size) }
        ensures refused { IfErr result (IsNotBegun places (length to.old) size) }
    {
        let live = places.live_words();
        if size == 0 {
            let fault = BeginFault::NoSize;
            return Err(NotBegun { fault, places });
        }
        if to.len() as u64 != live {
            let fault = BeginFault::OtherRoom(live);
            return Err(NotBegun { fault, places });
        }
        let source = Source {
            places,
            words,
            size,
        };
        match Pages::new(alloc, &source, to) {
            Ok(pages) => Ok(Desk { source, pages }),
            Err(_) => {
                let Source {
                    places,
                    words: _,
                    size: _,
                } = source;
                let fault = BeginFault::OutOfMemory;
                Err(NotBegun { fault, places })
            }
        }
    }

    /// How many pages there are.
    pub fn count(&self) -> usize
        ensures { result ≡ self.now.pages }
    {
        self.pages.count()
    }

    // The first word of a page that is there.
    fn first_of(&self, page: usize) -> Option<usize>
        ensures { MatchOption result (self.now.pages ≤ page)
            (λ first. (page < self.now.pages) × (first ≡ page * self.now.asked.size)) }
    {
        if page >= self.pages.count() {
            return None;
        }
        // The product is less than this number.
        let _live = self.source.live_words();
        Some(page * self.source.size)
    }

    // Fills a page that was taken with the words that slide there. It is put back if it is refused.
    fn fill(&self, taken: Taken<'m>, page: usize, first: usize) -> Result<Built<'m>, NotBuilt<'m>>
        requires inside { page < self.now.pages }
        requires first { first ≡ page * self.now.asked.size }
        requires has { HasPage self.now.asked self.now.id page taken }
        requires len { length taken.page.now ≡ page_len self.now.asked page }
        ensures inside { OnOk result (page < self.now.pages) }
        ensures built { IfOk result (λ built. built ≡ built_page self.now page) }
        ensures refused { IfErr result (IsNotBuilt self.now page) }
    {
        let Taken { seat, k, page: own } = taken;
        let (tried, own) = slide(&self.source.places, self.source.words, first as u64, own);
        let taken = Taken { seat, k, page: own };
        match tried {
            Ok(()) => Ok(Built { taken }),
            Err(fault) => {
                let sight = self.pages.put_back(taken, page);
                Err(NotBuilt::Refused(Refused { fault, sight }))
            }
        }
    }

    /// Builds a page, which this thread then has alone, until it publishes it. Any threads may call it at the same
    /// time. It tries once to take the page. Err if there is no such page, if it is home, if another thread has it, or
    /// if the words are not those of the survey, in this order. The desk is then as it was: a page that is refused
    /// waits again.
    pub fn touch(&self, page: usize) -> Result<Built<'m>, NotBuilt<'m>>
        ensures inside { OnOk result (page < self.now.pages) }
        ensures built { IfOk result (λ built. built ≡ built_page self.now page) }
        ensures refused { IfErr result (IsNotBuilt self.now page) }
    {
        let Some(first) = self.first_of(page) else {
            return Err(NotBuilt::NoSuchPage);
        };
        let (found, seat) = self.pages.look(page);
        if found == 2 {
            return Err(NotBuilt::Home(Home { seat }));
        }
        match self.pages.claim(seat, page) {
            Ok(taken) => self.fill(taken, page, first),
            Err(sight) => Err(NotBuilt::Busy(sight)),
        }
    }

    /// Says to all threads that a page of this desk is home, and hands it out. Its words are those that slide there.
    pub fn publish(&self, built: Built<'m>) -> Published<'m>
        requires { built.desk ≡ self.now }
        ensures home { result.home ≡ page_id self.now.id built.entry.page }
        ensures slid { result.page.now ≡ slid_page self.now.asked built.entry.page }
    {
        let Built { taken } = built;
        self.pages.publish(taken)
    }

    /// Ends the desk, once all pages are home. Err with the desk, as it was, if a page is not home.
    pub fn end(self) -> Result<Ended<'m>, NotEnded<'m>>
        ensures ended { IfOk result (λ ended. ended ≡ self.entry) }
        ensures inside { IfErr result (λ refused. refused.page < self.entry.pages) }
        ensures away { IfErr result (λ refused. IsSeenAway self.entry.id refused.page refused.sight) }
        ensures desk { IfErr result (λ refused. refused.desk ≡ self.entry) }
    {
        match self.pages.all_home() {
            Ok(seat) => {
                let desk = Snapshot::of(&self);
                let Desk { source, pages } = self;
                drop(pages);
                let Source {
                    places,
                    words: _,
                    size: _,
                } = source;
                Ok(Ended { places, seat, desk })
            }
            Err((page, sight)) => Err(NotEnded {
                page,
                desk: self,
                sight,
            }),
        }
    }
}
