//! Makes the tables of a survey.
ghost use Rattle.std.specs.Prelude.{◌≡◌, ◌+◌, ◌/◌, length, IfOk, IfErr};
ghost use Rattle.rest_marks.specs.Reached.{AreReached, IsSound, IsFaultOf};
ghost use Rattle.rest_marks.specs.Surveys.{marks_of, AreTables};

use heap_layout::Edition;
use rest_marks::{SurveyFault, mark, offsets};
use std::alloc::Global;

/// What a survey keeps: the bits of the first words of the live objects, those of all their words, and the offsets of
/// the blocks of the latter.
#[derive(Drop)]
pub(crate) struct Found {
    pub heads: Vec<u64>,
    pub bits: Vec<u64>,
    pub counts: Vec<u32>,
}

/// The tables of what the roots reach, made for these words. Err with a fault that is there, or with `OutOfMemory`.
pub(crate) fn tables_of(
    alloc: Global,
    edition: Edition,
    words: &[u64],
    roots: &[u64],
) -> Result<Found, SurveyFault>
    ensures reached { IfOk result (λ tables. AreReached edition words.now roots.now (marks_of tables.heads.items)) }
    ensures sound { IfOk result (λ tables. IsSound (record { edition = edition; words = words.now; marks = marks_of tables.heads.items; roots = roots.now })) }
    ensures tables { IfOk result (λ tables. AreTables edition words.now tables.heads.items tables.bits.items tables.counts.items) }
    ensures long { IfOk result (λ tables. length tables.heads.items ≡ (length words.now + 63) / 64) }
    ensures fault { IfErr result (IsFaultOf edition words.now roots.now) }
{
    if words.len() > edition.max_words() || roots.len() > edition.max_roots() {
        return Err(SurveyFault::TooLarge);
    }
    let blocks = words.len().div_ceil(64);
    let mut heads = vec![in alloc; 0u64; blocks]?;
    let mut bits = vec![in alloc; 0u64; blocks]?;
    mark(alloc, edition, words, roots, &mut heads, &mut bits)?;
    let counts = offsets(alloc, &bits)?;
    Ok(Found {
        heads,
        bits,
        counts,
    })
}
