//! Exports for a heap at rest: collections, surveys, and tables that are made before.
ghost use Rattle.std.specs.Prelude.{◌≡◌, None};
ghost use Rattle.rest_handle.specs.ByBits.{SurveysByBits};
ghost use Rattle.rest_handle.specs.Guarding.{SurveysGuarded};
ghost use Rattle.handle_base.specs.HandleKinds.{survey_in, tables_in, Asks, Fills, Turns};
ghost use Rattle.rest_handle.specs.Lending.{CollectsLent, CollectsLentInPlace, IsStillShared, IsUnlent, Reserves, Returns, SurveysLent};
ghost use Rattle.rest_handle.specs.Pinning.{CollectsPinned};
ghost use Rattle.rest_handle.specs.Resting.{Collects, CollectsInPlace, CountsSurvey, ForwardsRoots, ForwardsWeak, Slides, SurveysByMarks, SurveysByRoots};
ghost use Rattle.handle_base.specs.Sharing.{Shares};

use handle_base::{Answer, Handle};
use rest_handle::SurveyFacts;
use std::alloc::Global;

/// Collects the heap of these words and roots, of this edition, 1 to 4, into another memory.
#[unsafe(no_mangle)]
pub extern "C" fn compressor_c_collect(
    alloc: Global,
    edition: u32,
    words: &[u64],
    roots: &mut [u64],
    to: &mut [u64],
) -> Answer
    ensures { Collects edition words.now roots.old roots.new to.old to.new result }
{
    rest_handle::collect(alloc, edition, words, roots, to)
}

/// Collects the heap of these words and roots, of this edition, 1 to 4, within the words.
#[unsafe(no_mangle)]
pub extern "C" fn compressor_c_collect_in_place(
    alloc: Global,
    edition: u32,
    words: &mut [u64],
    roots: &mut [u64],
) -> Answer
    ensures { CollectsInPlace edition words.old words.new roots.old roots.new result }
{
    rest_handle::collect_in_place(alloc, edition, words, roots)
}

/// Collects the heap of these words and roots within the words, around pinned objects, which stay where they are.
#[unsafe(no_mangle)]
pub extern "C" fn compressor_c_collect_pinned(
    alloc: Global,
    edition: u32,
    words: &mut [u64],
    roots: &mut [u64],
    pins: &[u64],
    runs: &mut [u64],
    run_count: &mut u64,
) -> Answer
    ensures { CollectsPinned edition words.old words.new roots.old roots.new pins.now runs.old runs.new run_count.old run_count.new result }
{
    rest_handle::collect_pinned(alloc, edition, words, roots, pins, runs, run_count)
}

/// Collects the heap of these words and roots into another memory, by tables that were made before.
#[unsafe(no_mangle)]
pub extern "C" fn compressor_c_collect_lent(
    alloc: Global,
    tables: &mut Handle,
    edition: u32,
    words: &[u64],
    roots: &mut [u64],
    to: &mut [u64],
) -> Answer
    ensures same { tables.new.kept ≡ tables.old.kept }
    ensures collects { Asks 0 tables_in (CollectsLent edition words.now roots.old roots.new to.old to.new) ((roots.new ≡ roots.old) × (to.new ≡ to.old)) tables.old.kept result }
{
    rest_handle::collect_lent(alloc, tables, edition, words, roots, to)
}

/// Collects the heap of these words and roots within the words, by tables that were made before.
#[unsafe(no_mangle)]
pub extern "C" fn compressor_c_collect_in_place_lent(
    alloc: Global,
    tables: &mut Handle,
    edition: u32,
    words: &mut [u64],
    roots: &mut [u64],
) -> Answer
    ensures same { tables.new.kept ≡ tables.old.kept }
    ensures collects { Asks 0 tables_in (CollectsLentInPlace edition words.old words.new roots.old roots.new) ((roots.new ≡ roots.old) × (words.new ≡ words.old)) tables.old.kept result }
{
    rest_handle::collect_in_place_lent(alloc, tables, edition, words, roots)
}

/// Surveys the heap of these words and roots, of this edition, 1 to 4.
#[unsafe(no_mangle)]
pub extern "C" fn compressor_c_survey_by_roots(
    alloc: Global,
    edition: u32,
    words: &[u64],
    roots: &[u64],
    survey: &mut Handle,
) -> Answer
    ensures { SurveysByRoots edition words.now roots.now survey.old.kept survey.new.kept result }
{
    rest_handle::survey_by_roots(alloc, edition, words, roots, survey)
}

/// Surveys the heap of these words and roots by marks of the caller's own, a bit for each word.
#[unsafe(no_mangle)]
pub extern "C" fn compressor_c_survey_by_marks(
    alloc: Global,
    edition: u32,
    words: &[u64],
    roots: &[u64],
    marks: &[u64],
    survey: &mut Handle,
) -> Answer
    ensures { SurveysByMarks edition words.now roots.now marks.now survey.old.kept survey.new.kept result }
{
    rest_handle::survey_by_marks(alloc, edition, words, roots, marks, survey)
}

/// Surveys a heap by bits of the caller's own, of the first words of objects and of all their words, with no look at
/// the words of the heap.
#[unsafe(no_mangle)]
pub extern "C" fn compressor_c_survey_by_bits(
    alloc: Global,
    edition: u32,
    count: u64,
    roots: &[u64],
    heads: &[u64],
    live: &[u64],
    survey: &mut Handle,
) -> Answer
    ensures { SurveysByBits edition count roots.now heads.now live.now survey.old.kept survey.new.kept result }
{
    rest_handle::survey_by_bits(alloc, edition, count, roots, heads, live, survey)
}

/// Surveys the heap of these words and roots with ephemerons and guarded words, which are told apart.
#[unsafe(no_mangle)]
pub extern "C" fn compressor_c_survey_guarded(
    alloc: Global,
    edition: u32,
    words: &[u64],
    roots: &[u64],
    ephemerons: &[u64],
    guarded: &mut [u64],
    survey: &mut Handle,
    lost: &mut u64,
) -> Answer
    ensures { SurveysGuarded edition words.now roots.now ephemerons.now guarded.old guarded.new lost.old lost.new survey.old.kept survey.new.kept result }
{
    rest_handle::survey_guarded(
        alloc, edition, words, roots, ephemerons, guarded, survey, lost,
    )
}

/// Surveys the heap of these words and roots by tables that were made before. The handle of the survey has them then.
#[unsafe(no_mangle)]
pub extern "C" fn compressor_c_survey_by_roots_lent(
    alloc: Global,
    tables: &mut Handle,
    edition: u32,
    words: &[u64],
    roots: &[u64],
    survey: &mut Handle,
) -> Answer
    ensures { Turns tables_in (SurveysLent edition words.now roots.now) (IsUnlent edition words.now roots.now) tables.old.kept tables.new.kept survey.old.kept survey.new.kept result }
{
    rest_handle::survey_lent(alloc, tables, edition, words, roots, survey)
}

/// Copies the counts of a survey.
#[unsafe(no_mangle)]
pub extern "C" fn compressor_survey_facts_of(
    alloc: Global,
    survey: &mut Handle,
    facts: &mut SurveyFacts,
) -> Answer
    ensures same { survey.new.kept ≡ survey.old.kept }
    ensures counts { Asks 0 survey_in (CountsSurvey facts.new) (facts.new ≡ facts.old) survey.old.kept result }
{
    rest_handle::survey_facts(alloc, survey, facts)
}

/// Another share of a survey, for another thread.
#[unsafe(no_mangle)]
pub extern "C" fn compressor_survey_share(
    alloc: Global,
    survey: &mut Handle,
    other: &mut Handle,
) -> Answer
    ensures same { survey.new.kept ≡ survey.old.kept }
    ensures shares { Shares survey_in survey.old.kept other.old.kept other.new.kept result }
{
    rest_handle::share_survey(alloc, survey, other)
}

/// Fills a part of the memory into which the heap slides, from word `first` on.
#[unsafe(no_mangle)]
pub extern "C" fn compressor_c_survey_slide(
    alloc: Global,
    survey: &mut Handle,
    words: &[u64],
    first: u64,
    part: &mut [u64],
) -> Answer
    ensures same { survey.new.kept ≡ survey.old.kept }
    ensures slides { Asks 0 survey_in (Slides words.now first part.old part.new) (part.new ≡ part.old) survey.old.kept result }
{
    rest_handle::slide_survey(alloc, survey, words, first, part)
}

/// Makes roots lead to where their objects are after the collection.
#[unsafe(no_mangle)]
pub extern "C" fn compressor_c_survey_forward(
    alloc: Global,
    survey: &mut Handle,
    roots: &mut [u64],
) -> Answer
    ensures same { survey.new.kept ≡ survey.old.kept }
    ensures forwards { Asks 0 survey_in (ForwardsRoots roots.old roots.new) (roots.new ≡ roots.old) survey.old.kept result }
{
    rest_handle::forward_survey(alloc, survey, roots)
}

/// Makes weak words lead to where their objects are after the collection: one that leads to no live object becomes
/// null.
#[unsafe(no_mangle)]
pub extern "C" fn compressor_c_survey_forward_weak(
    alloc: Global,
    survey: &mut Handle,
    words: &mut [u64],
) -> Answer
    ensures same { survey.new.kept ≡ survey.old.kept }
    ensures forwards { Asks 0 survey_in (ForwardsWeak words.old words.new) (words.new ≡ words.old) survey.old.kept result }
{
    rest_handle::forward_weak(alloc, survey, words)
}

/// Ends a survey, and gives its tables back. The handle of the tables keeps them then, and that of the survey is empty.
#[unsafe(no_mangle)]
pub extern "C" fn compressor_survey_return(
    alloc: Global,
    survey: &mut Handle,
    tables: &mut Handle,
) -> Answer
    ensures { Turns survey_in Returns IsStillShared survey.old.kept survey.new.kept tables.old.kept tables.new.kept result }
{
    rest_handle::return_tables(alloc, survey, tables)
}

/// Drops a survey, and its tables. Its handle is empty then.
#[unsafe(no_mangle)]
pub extern "C" fn compressor_survey_drop(alloc: Global, survey: &mut Handle)
    ensures { survey.new.kept ≡ None }
{
    flip_handle::drop_kept(alloc, survey);
}

/// Makes tables with room for a survey of so many words.
#[unsafe(no_mangle)]
pub extern "C" fn compressor_tables_reserve(
    alloc: Global,
    words: u64,
    tables: &mut Handle,
) -> Answer
    ensures { Fills 0 (Reserves words) (Unit {0}) tables.old.kept tables.new.kept result }
{
    rest_handle::reserve_tables(alloc, words, tables)
}

/// Drops tables. Their handle is empty then.
#[unsafe(no_mangle)]
pub extern "C" fn compressor_tables_drop(alloc: Global, tables: &mut Handle)
    ensures { tables.new.kept ≡ None }
{
    flip_handle::drop_kept(alloc, tables);
}
