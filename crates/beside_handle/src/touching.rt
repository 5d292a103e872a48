//! One page of a slide by first touch: its turn, its words, and that it is home. These calls take no memory.
ghost use Rattle.std.specs.Prelude.{◌≡◌};
ghost use Rattle.handle_base.specs.Paged.{paged, IsOwn};
ghost use Rattle.beside_handle.specs.Touching.{of_turn, Builds, Claims, Publishes, Touches};

use first_touch::{NotHad, TurnFault};
use handle_base::{Answer, Handle, Has, Kept, Paging, status};
use std::alloc::Global;
use std::mem::replace;

// Takes the turn for a page.
fn claim(pages: &mut Paging, page: u64) -> Answer
    requires { IsOwn (paged pages.old) }
    ensures own { IsOwn (paged pages.new) }
    ensures claims { Claims page (paged pages.old) (paged pages.new) result }
{
    if let Some(own) = pages.has.page() {
        return Answer::bare(status::TURN_TAKEN, own as u64);
    }
    match (&*pages.turns).claim(page as usize) {
        Ok(turn) => {
            pages.has = Has::Turn(turn);
            Answer::done(0)
        }
        Err(NotHad::NoSuchPage) => Answer::bare(status::NO_SUCH_PAGE, page),
        Err(NotHad::Home(home)) => {
            pages.has = Has::Home(home);
            Answer::bare(status::PAGE_HOME, page)
        }
        Err(NotHad::Busy(sight)) => {
            pages.has = Has::Sight(sight);
            Answer::bare(status::PAGE_BUSY, page)
        }
    }
}

/// Takes the turn for a page, of the slide of which a handle keeps a share: the handle has it then, alone. It tries
/// once. If it is refused, it is since the handle has a turn already; there is no such page; the page is home; or
/// another handle has it, or had it a moment ago.
pub fn claim_page(alloc: Global, h: &mut Handle, page: u64) -> Answer
    ensures { Touches (Claims page) (Unit {0}) h.old.kept h.new.kept result }
{
    let Some(mut kept) = h.take(alloc) else {
        return Answer::bare(status::EMPTY_HANDLE, 0);
    };
    let answer = match kept.as_mut() {
        Kept::Pages(pages) => claim(pages, page),
        _ => Answer::bare(status::WRONG_HANDLE, 0),
    };
    h.put_back(kept);
    answer
}

// The answer of a page that is not built.
fn unbuilt(fault: TurnFault) -> Answer
    ensures { result ≡ of_turn fault }
{
    match fault {
        TurnFault::OtherRoom(room) => Answer::bare(status::OTHER_LENGTH, room),
        TurnFault::Slide(fault) => Answer::unslid(fault),
    }
}

// Fills a page whose turn the handle has.
fn build(pages: &mut Paging, words: &[u64], page: &mut [u64]) -> Answer
    requires { IsOwn (paged pages.old) }
    ensures own { IsOwn (paged pages.new) }
    ensures builds { Builds words.now page.old page.new (paged pages.old) (paged pages.new) result }
{
    match replace(&mut pages.has, Has::Nothing) {
        Has::Turn(turn) => match (&*pages.turns).build(turn, words, page) {
            Ok(filled) => {
                pages.has = Has::Filled(filled);
                Answer::done(0)
            }
            Err(refused) => {
                pages.has = Has::Sight(refused.sight);
                unbuilt(refused.fault)
            }
        },
        other => {
            pages.has = other;
            Answer::bare(status::NO_TURN, 0)
        }
    }
}

/// Fills the memory of the page whose turn the handle has, with the words that slide there out of `words`, which are
/// those of from-space. The handle may publish the page then. If the page has another number of words, or the words are
/// not those of the survey, the handle has no turn any more, and the page waits again. If it has no turn, or the page
/// is built, nothing changes.
pub fn build_page(alloc: Global, h: &mut Handle, words: &[u64], page: &mut [u64]) -> Answer
    ensures { Touches (Builds words.now page.old page.new) (page.new ≡ page.old) h.old.kept h.new.kept result }
{
    let Some(mut kept) = h.take(alloc) else {
        return Answer::bare(status::EMPTY_HANDLE, 0);
    };
    let answer = match kept.as_mut() {
        Kept::Pages(pages) => build(pages, words, page),
        _ => Answer::bare(status::WRONG_HANDLE, 0),
    };
    h.put_back(kept);
    answer
}

// Says that the page that was built is home.
fn publish(pages: &mut Paging) -> Answer
    requires { IsOwn (paged pages.old) }
    ensures own { IsOwn (paged pages.new) }
    ensures publishes { Publishes (paged pages.old) (paged pages.new) result }
{
    match replace(&mut pages.has, Has::Nothing) {
        Has::Filled(filled) => {
            pages.has = Has::Home((&*pages.turns).publish(filled));
            Answer::done(0)
        }
        Has::Turn(turn) => {
            let page = turn.page() as u64;
            pages.has = Has::Turn(turn);
            Answer::bare(status::NOT_BUILT, page)
        }
        other => {
            pages.has = other;
            Answer::bare(status::NO_TURN, 0)
        }
    }
}

/// Says to all handles that the page that this one has built is home. If it has no turn, or the page is not built,
/// nothing changes.
pub fn publish_page(alloc: Global, h: &mut Handle) -> Answer
    ensures { Touches Publishes (Unit {0}) h.old.kept h.new.kept result }
{
    let Some(mut kept) = h.take(alloc) else {
        return Answer::bare(status::EMPTY_HANDLE, 0);
    };
    let answer = match kept.as_mut() {
        Kept::Pages(pages) => publish(pages),
        _ => Answer::bare(status::WRONG_HANDLE, 0),
    };
    h.put_back(kept);
    answer
}
