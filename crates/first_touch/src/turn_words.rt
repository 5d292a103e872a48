//! The words of the turns, which threads share: a function for each step.
ghost use Rattle.std.specs.Prelude.{◌≡◌, ◌≢◌, ◌<◌, ◌≤◌, ◌==◌, [], cond, IfErr, IfOk, OnErr};
ghost use Rattle.first_touch.specs.Turning.{at_page};
ghost use Rattle.first_touch.specs.Homes.{AreAllHome};
ghost use Rattle.first_touch.specs.TurnHaving.{HasTurn, IsFree, KnowsTurn};
ghost use Rattle.first_touch.specs.Seen.{IsPutBack, IsSeenBusy, IsSeenAway};

use crate::turn::TurnSight;
use crate::turn_rule::{ClaimTurn, LookTurn, PublishTurn, PutBackTurn, TurnRule, WalkTurn};
use crate::turn_view::TurnView;
use atomic_table::{Seat, Table};
use std::alloc::{AllocError, Global};

/// A word for each page.
#[derive(Drop)]
pub struct TurnWords {
    pub(crate) table: Table<(), TurnView, u64, TurnRule, Global>,
    ghost key: { table.shared.key ≡ table.shared.table_id.words },
}

impl TurnWords {
    ghost use Rattle.first_touch.specs.Tables.{words_id};

    /// The words of so many pages, all of which wait.
    pub(crate) fn new(alloc: Global, pages: usize) -> Result<TurnWords, AllocError>
        ensures { IfOk result (λ words. (words_id words).words ≡ pages) }
    {
        let words = vec![in alloc; 0u64; pages]?;
        let key = pages as u64;
        let (table, _seat) = Table::of_words(alloc, &words, &key)?;
        Ok(TurnWords { table })
    }

    /// How many there are.
    pub(crate) fn count(&self) -> usize
        ensures { result ≡ (words_id self.now).words }
    {
        self.table.word_count()
    }

    /// Looks at the word of page `k`.
    pub(crate) fn look(&self, k: usize) -> (u64, Seat<(), TurnView>)
        requires { k < (words_id self.now).words }
        ensures same { result.1.table_id ≡ words_id self.now }
        ensures view { result.1.me ≡ (at_page k (cond (result.0 == 2) 2 0) result.0, []) }
    {
        self.table.shared.load_new_seat::<LookTurn>(k)
    }

    /// Takes page `k` by one exchange. Err if another thread has it, or had it a moment ago.
    pub(crate) fn claim(
        &self,
        mut seat: Seat<(), TurnView>,
        k: usize,
    ) -> Result<Seat<(), TurnView>, TurnSight>
        requires inside { k < (words_id self.now).words }
        requires same { seat.table_id ≡ words_id self.now }
        requires free { IsFree k seat.me }
        ensures has { IfOk result (HasTurn (words_id self.now) k) }
        ensures busy { IfErr result (IsSeenBusy (words_id self.now) k) }
    {
        let found = self
            .table
            .shared
            .compare_exchange::<ClaimTurn>(&mut seat, k, 0, 1);
        if found != 0 {
            return Err(TurnSight { seat });
        }
        Ok(seat)
    }

    /// Puts page `k` back. It waits again.
    pub(crate) fn put_back(&self, mut seat: Seat<(), TurnView>, k: usize) -> TurnSight
        requires inside { k < (words_id self.now).words }
        requires has { HasTurn (words_id self.now) k seat }
        ensures { IsPutBack (words_id self.now) k result }
    {
        self.table.shared.store::<PutBackTurn>(&mut seat, k, 0);
        TurnSight { seat }
    }

    /// Says that page `k` is home.
    pub(crate) fn publish(&self, mut seat: Seat<(), TurnView>, k: usize) -> Seat<(), TurnView>
        requires inside { k < (words_id self.now).words }
        requires has { HasTurn (words_id self.now) k seat }
        ensures { KnowsTurn (words_id self.now) k result }
    {
        self.table.shared.store::<PublishTurn>(&mut seat, k, 2);
        seat
    }

    // Walks over all pages, of which there are some. Err with the first one that is not home.
    fn walk(&self, seat: &mut Seat<(), TurnView>) -> Result<(), usize>
        requires same { seat.old.table_id ≡ words_id self.now }
        requires begin { seat.old.me.0.known.below ≡ 0 }
        ensures same { seat.new.table_id ≡ words_id self.now }
        ensures all { IfOk result (λ _. (words_id self.now).words ≤ seat.new.me.0.known.below) }
        ensures inside { IfErr result (λ k. k < (words_id self.now).words) }
        ensures met { IfErr result (λ k. seat.new.me.0.met.page ≡ k) }
        ensures away { OnErr result (seat.new.me.0.met.word ≢ 2) }
    {
        for k in 0..self.table.word_count() {
            if self.table.shared.load::<WalkTurn>(seat, k) != 2 {
                return Err(k);
            }
        }
        Ok(())
    }

    /// Knows that all pages are home. Err with one that is not.
    pub(crate) fn all_home(&self) -> Result<Option<Seat<(), TurnView>>, (usize, TurnSight)>
        ensures all { IfOk result (AreAllHome (λ view. view.known) (words_id self.now)) }
        ensures inside { IfErr result (λ (k, sight). k < (words_id self.now).words) }
        ensures away { IfErr result (λ (k, sight). IsSeenAway (words_id self.now) k sight) }
    {
        if self.table.word_count() == 0 {
            return Ok(None);
        }
        let (_, mut seat) = self.look(0);
        match self.walk(&mut seat) {
            Ok(()) => Ok(Some(seat)),
            Err(k) => Err((k, TurnSight { seat })),
        }
    }
}
