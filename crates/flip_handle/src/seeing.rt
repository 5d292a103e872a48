//! Pages are copied while mutators go on.
ghost use Rattle.std.specs.Prelude.{◌≡◌};
ghost use Rattle.comp_crew.specs.Members.{IsMember};
ghost use Rattle.flip_handle.specs.Seeing.{CopiesSeen, SeesBy};

use comp_crew::Member;
use handle_base::{Answer, Handle, Kept, status};
use std::alloc::Global;

// Copies the words of a page.
fn copy_seen(alloc: Global, m: &mut Member, p: u64, out: &mut [u64; 64]) -> Answer
    requires { IsMember m.old }
    ensures of { IsMember m.new }
    ensures copies { CopiesSeen p out.old out.new m.old m.new result }
{
    if p >= m.pages() {
        return Answer::bare(status::NO_SUCH_PAGE, p);
    }
    match m.page_copy(alloc, p) {
        Ok(copy) => {
            *out = *copy.words.as_array();
            Answer::done(copy.journal.len() as u64)
        }
        Err(refusal) => Answer::refused(0, refusal),
    }
}

/// Copies the words of a page as the mutator that the handle keeps has then seen it, while others go on. The answer has
/// the number of entries of the page's journal. If nobody has built the page, the call builds it, and it stays built if
/// the copy is then refused. After a refusal the buffer is as it was.
pub fn seen_page(alloc: Global, h: &mut Handle, p: u64, out: &mut [u64; 64]) -> Answer
    ensures { SeesBy p out.old out.new h.old.kept h.new.kept result }
{
    let Some(mut kept) = h.take(alloc) else {
        return Answer::bare(status::EMPTY_HANDLE, 0);
    };
    let answer = match kept.as_mut() {
        Kept::Mutator(m) => copy_seen(alloc, m, p, out),
        _ => Answer::bare(status::WRONG_HANDLE, 0),
    };
    h.put_back(kept);
    answer
}
