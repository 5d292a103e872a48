//! A slide page by page, by handles: its beginning, its shares, and its end. Any threads touch pages, each by a share
//! of its own.
ghost use Rattle.std.specs.Prelude.{◌≡◌, ◌⊎◌, IfErr, IfOk, IsFalse, IsTrue, MatchOption};
ghost use Rattle.handle_base.specs.Answers.{bare};
ghost use Rattle.handle_base.specs.HandleKinds.{pages_in};
ghost use Rattle.handle_base.specs.Paged.{paged, IsOwn};
ghost use Rattle.beside_handle.specs.Paging.{BeginsPages, EndsPages, IsLeft, SharesPages};
ghost use Rattle.handle_base.specs.Sharing.{IsUnsharedIn};
ghost use Rattle.handle_base.specs.Statuses.{not_empty, out_of_memory};

use first_touch::{NotHome, Turns};
use handle_base::{
    Answer, Handle, Has, Kept, Opened, Paging, as_pages, close, into_pages, into_survey, is_full,
    keep, open, status,
};
use std::alloc::Global;
use std::sync::Arc;
use stopped_heap::Places;

/// Begins to slide the heap of the survey that a handle keeps, in pages of so many words; another handle, which was
/// empty, keeps the pages then, and that of the survey is empty. The answer has the number of pages. If a page has no
/// words, or memory runs out, the one keeps the survey still, and the other one is empty.
pub fn begin_pages(alloc: Global, survey: &mut Handle, size: u64, pages: &mut Handle) -> Answer
    ensures { BeginsPages size survey.old.kept survey.new.kept pages.old.kept pages.new.kept result }
{
    let full = is_full(alloc, pages);
    let Some(Opened { room, kept }) = open(alloc, survey) else {
        return Answer::bare(status::EMPTY_HANDLE, 0);
    };
    let places = match into_survey(kept) {
        Ok(places) => places,
        Err(kept) => {
            close(survey, room, kept);
            return Answer::bare(status::WRONG_HANDLE, 0);
        }
    };
    if full {
        close(survey, room, Kept::Survey(places));
        return Answer::bare(status::NOT_EMPTY, 1);
    }
    if size == 0 {
        close(survey, room, Kept::Survey(places));
        return Answer::bare(status::NO_SIZE, 0);
    }
    match Turns::begin_shared(alloc, places, size as usize) {
        Ok(turns) => {
            let count = (&*turns).count() as u64;
            let has = Has::Nothing;
            close(pages, room, Kept::Pages(Paging { turns, has }));
            Answer::done(count)
        }
        Err(refused) => {
            close(survey, room, Kept::Survey(refused.places));
            Answer::bare(status::OUT_OF_MEMORY, 0)
        }
    }
}

// A share of these turns, for a handle that is full or not.
fn share(pages: &Paging, full: bool) -> Result<Arc<Turns>, Answer>
    ensures same { IfOk result (λ own. own.value ≡ pages.now.turns.value) }
    ensures free { IfOk result (λ _. IsFalse full) }
    ensures none { IfErr result (λ a. (IsTrue full × (a ≡ bare not_empty 1)) ⊎ (IsFalse full × (a ≡ bare out_of_memory 0))) }
{
    if full {
        return Err(Answer::bare(status::NOT_EMPTY, 1));
    }
    match Arc::try_clone(&pages.turns) {
        Ok(own) => Ok(own),
        Err(_) => Err(Answer::bare(status::OUT_OF_MEMORY, 0)),
    }
}

// The same of the turns that the handle keeps, which stays as it is.
fn share_of(alloc: Global, h: &mut Handle, full: bool) -> Result<Arc<Turns>, Answer>
    ensures same { h.new.kept ≡ h.old.kept }
    ensures own { IfOk result (λ own. MatchOption (pages_in h.old.kept) ⊥ (λ pages. pages.turns ≡ own.value)) }
    ensures free { IfOk result (λ _. IsFalse full) }
    ensures none { IfErr result (IsUnsharedIn pages_in full h.old.kept) }
{
    let Some(kept) = h.take(alloc) else {
        return Err(Answer::bare(status::EMPTY_HANDLE, 0));
    };
    let own = match as_pages(kept.as_ref()) {
        Some(pages) => share(pages, full),
        None => Err(Answer::bare(status::WRONG_HANDLE, 0)),
    };
    h.put_back(kept);
    own
}

/// Puts another share of the pages that a handle keeps into an empty handle, for another thread. It has no turn. If
/// memory runs out, it stays empty.
pub fn share_pages(alloc: Global, h: &mut Handle, other: &mut Handle) -> Answer
    ensures same { h.new.kept ≡ h.old.kept }
    ensures shares { SharesPages h.old.kept other.old.kept other.new.kept result }
{
    let full = is_full(alloc, other);
    match share_of(alloc, h, full) {
        Ok(turns) => {
            let has = Has::Nothing;
            if keep(alloc, other, Kept::Pages(Paging { turns, has })) {
                Answer::done(0)
            } else {
                Answer::bare(status::OUT_OF_MEMORY, 0)
            }
        }
        Err(answer) => answer,
    }
}

// What a handle keeps of pages that are not ended, and the answer.
#[derive(Drop)]
struct Left {
    pages: Paging,
    answer: Answer,
}

// Ends turns, if all pages are home and this is the only share.
fn end(turns: Arc<Turns>) -> Result<Arc<Places>, Left>
    ensures found { IfOk result (λ places. places.value ≡ turns.value.found) }
    ensures own { IfErr result (λ left. IsOwn (paged left.pages)) }
    ensures left { IfErr result (λ left. IsLeft turns.value (paged left.pages) left.answer) }
{
    let home = match (&*turns).all_home() {
        Ok(home) => home,
        Err(NotHome { page, sight }) => {
            let has = Has::Sight(sight);
            return Err(Left {
                pages: Paging { turns, has },
                answer: Answer::bare(status::NOT_HOME, page as u64),
            });
        }
    };
    match Arc::try_unwrap(turns) {
        Ok(turns) => Ok(turns.end_home(home).into_places()),
        Err(turns) => {
            let has = Has::Nothing;
            Err(Left {
                pages: Paging { turns, has },
                answer: Answer::bare(status::STILL_SHARED, 0),
            })
        }
    }
}

/// Ends the pages that a handle keeps, once all of them are home; another handle, which was empty, keeps the survey
/// then, and that of the pages is empty. If a page is not home, or another handle keeps a share, both keep what they
/// kept. Takes no memory.
pub fn end_pages(alloc: Global, pages: &mut Handle, survey: &mut Handle) -> Answer
    ensures { EndsPages pages.old.kept pages.new.kept survey.old.kept survey.new.kept result }
{
    let full = is_full(alloc, survey);
    let Some(Opened { room, kept }) = open(alloc, pages) else {
        return Answer::bare(status::EMPTY_HANDLE, 0);
    };
    let own = match into_pages(kept) {
        Ok(own) => own,
        Err(kept) => {
            close(pages, room, kept);
            return Answer::bare(status::WRONG_HANDLE, 0);
        }
    };
    if full {
        close(pages, room, Kept::Pages(own));
        return Answer::bare(status::NOT_EMPTY, 1);
    }
    if let Some(page) = own.has.page() {
        close(pages, room, Kept::Pages(own));
        return Answer::bare(status::NOT_HOME, page as u64);
    }
    match end(own.turns) {
        Ok(places) => {
            close(survey, room, Kept::Survey(places));
            Answer::done(0)
        }
        Err(
            Left {
                pages: left,
                answer,
            },
        ) => {
            close(pages, room, Kept::Pages(left));
            answer
        }
    }
}
