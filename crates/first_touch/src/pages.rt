//! The pages, which threads share: a function for each step.
ghost use Rattle.std.specs.Prelude.{◌≡◌, ◌≢◌, ◌<◌, ◌≤◌, ◌==◌, [], cond, length, IfErr, IfOk, OnErr};
ghost use Rattle.first_touch.specs.Asked.{page_len, slid_page, IsCutIn};
ghost use Rattle.first_touch.specs.Pages.{at_page};
ghost use Rattle.first_touch.specs.Having.{HasPage, IsFree};
ghost use Rattle.first_touch.specs.Homes.{AreAllHome};
ghost use Rattle.first_touch.specs.Seen.{page_id, IsPutBack, IsSeenBusy, IsSeenAway};

use crate::built::{Home, Published, Sight, Taken};
use crate::rows::rows;
use crate::rule::{Claim, Look, PageRule, Publish, PutBack, Walk};
use crate::source::Source;
use crate::view::View;
use atomic_table::{Seat, Table};
use std::alloc::{AllocError, Global};

/// All pages: a word and a slot for each.
#[derive(Drop)]
pub struct Pages<'m> {
    pub(crate) table: Table<Option<&'m mut [u64]>, View, Source<'m>, PageRule, Global>,
    ghost same: { table.shared.table_id.words ≡ table.shared.table_id.slots },
}

impl<'m> Pages<'m> {
    ghost use Rattle.first_touch.specs.Tables.{pages_id, pages_asked};

    /// The pages of to-space, all of which wait.
    pub(crate) fn new(
        alloc: Global,
        source: &Source<'m>,
        to: &'m mut [u64],
    ) -> Result<Pages<'m>, AllocError>
        requires some { 0 < source.now.size }
        requires room { length to.old ≡ length source.now.found.indices }
        ensures key { IfOk result (λ pages. pages_asked pages ≡ source.now) }
        ensures cut { IfOk result (λ pages. IsCutIn source.now (pages_id pages).words) }
    {
        let rows = rows(alloc, source, to)?;
        let words = vec![in alloc; 0u64; rows.len()]?;
        match Table::new(alloc, &words, rows, source) {
            Ok((table, _seat)) => Ok(Pages { table }),
            Err(_refused) => Err(AllocError),
        }
    }

    /// How many there are.
    pub(crate) fn count(&self) -> usize
        ensures { result ≡ (pages_id self.now).words }
    {
        self.table.word_count()
    }

    /// Looks at the word of page `k`.
    pub(crate) fn look(&self, k: usize) -> (u64, Seat<Option<&'m mut [u64]>, View>)
        requires { k < (pages_id self.now).words }
        ensures same { result.1.table_id ≡ pages_id self.now }
        ensures view { result.1.me ≡ (at_page (pages_asked self.now) k (cond (result.0 == 2) 2 0) result.0, []) }
    {
        self.table.shared.load_new_seat::<Look>(k)
    }

    /// Takes page `k` by one exchange. Err if another thread has it, or had it a moment ago.
    pub(crate) fn claim(
        &self,
        mut seat: Seat<Option<&'m mut [u64]>, View>,
        k: usize,
    ) -> Result<Taken<'m>, Sight<'m>>
        requires inside { k < (pages_id self.now).words }
        requires same { seat.table_id ≡ pages_id self.now }
        requires free { IsFree (pages_asked self.now) k seat.me }
        ensures has { IfOk result (HasPage (pages_asked self.now) (pages_id self.now) k) }
        ensures len { IfOk result (λ taken. length taken.page.now ≡ page_len (pages_asked self.now) k) }
        ensures busy { IfErr result (IsSeenBusy (pages_id self.now) k) }
    {
        let found = self
            .table
            .shared
            .compare_exchange::<Claim>(&mut seat, k, 0, 1);
        if found != 0 {
            return Err(Sight { seat });
        }
        let page = self.table.shared.exchange(&mut seat, k, None).unwrap();
        Ok(Taken { seat, k, page })
    }

    /// Puts a page back. It waits again.
    pub(crate) fn put_back(&self, taken: Taken<'m>, k: usize) -> Sight<'m>
        requires inside { k < (pages_id self.now).words }
        requires has { HasPage (pages_asked self.now) (pages_id self.now) k taken }
        requires len { length taken.page.now ≡ page_len (pages_asked self.now) k }
        ensures { IsPutBack (pages_id self.now) k result }
    {
        let Taken {
            mut seat,
            k: _,
            page,
        } = taken;
        let _none = self.table.shared.exchange(&mut seat, k, Some(page));
        self.table.shared.store::<PutBack>(&mut seat, k, 0);
        Sight { seat }
    }

    /// Says that a page is home, and hands it out. At this step its words are those that slide there, or the prover
    /// refuses the step.
    pub(crate) fn publish(&self, taken: Taken<'m>) -> Published<'m>
        requires inside { taken.k < (pages_id self.now).words }
        requires has { HasPage (pages_asked self.now) (pages_id self.now) taken.k taken }
        requires slid { taken.page.now ≡ slid_page (pages_asked self.now) taken.k }
        ensures home { result.home ≡ page_id (pages_id self.now) taken.entry.k }
        ensures same { result.page.now ≡ taken.entry.page.now }
    {
        let Taken { mut seat, k, page } = taken;
        let _none = self.table.shared.exchange(&mut seat, k, Some(page));
        self.table.shared.store::<Publish>(&mut seat, k, 2);
        let page = self.table.shared.exchange(&mut seat, k, None).unwrap();
        Published {
            home: Home { seat },
            page,
        }
    }

    // Walks over all pages, of which there are some. Err with the first one that is not home.
    fn walk(&self, seat: &mut Seat<Option<&'m mut [u64]>, View>) -> Result<(), usize>
        requires same { seat.old.table_id ≡ pages_id self.now }
        requires begin { seat.old.me.0.known.below ≡ 0 }
        ensures same { seat.new.table_id ≡ pages_id self.now }
        ensures all { IfOk result (λ _. (pages_id self.now).words ≤ seat.new.me.0.known.below) }
        ensures inside { IfErr result (λ k. k < (pages_id self.now).words) }
        ensures met { IfErr result (λ k. seat.new.me.0.met.page ≡ k) }
        ensures away { OnErr result (seat.new.me.0.met.word ≢ 2) }
    {
        for k in 0..self.table.word_count() {
            if self.table.shared.load::<Walk>(seat, k) != 2 {
                return Err(k);
            }
        }
        Ok(())
    }

    /// Knows that all pages are home. Err with one that is not.
    pub(crate) fn all_home(
        &self,
    ) -> Result<Option<Seat<Option<&'m mut [u64]>, View>>, (usize, Sight<'m>)>
        ensures all { IfOk result (AreAllHome (λ view. view.known) (pages_id self.now)) }
        ensures inside { IfErr result (λ (k, sight). k < (pages_id self.now).words) }
        ensures away { IfErr result (λ (k, sight). IsSeenAway (pages_id self.now) k sight) }
    {
        if self.table.word_count() == 0 {
            return Ok(None);
        }
        let (_, mut seat) = self.look(0);
        match self.walk(&mut seat) {
            Ok(()) => Ok(Some(seat)),
            Err(k) => Err((k, Sight { seat })),
        }
    }
}
