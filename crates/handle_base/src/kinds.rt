//! What is kept, by its kind: taken out, or looked at.
ghost use Rattle.std.specs.Prelude.{◌≡◌, None, Some, IfErr, IfOk, MatchOption};
ghost use Rattle.handle_base.specs.HandleKinds.{crew_in, end_in, growing_in, heap_in, job_in, lane_in, looks_in, marking_in, mutator_in, old_in, pages_in, plan_in, survey_in, tables_in};
ghost use Rattle.handle_base.specs.declared.kept.Kept.TheVariants as kinds;

use crate::kept::Kept;
use crate::marker::Marker;
use crate::pages::Paging;
use comp_crew::{Bench, Ended, Member};
use heap_layout::MarkedHeap;
use mark_job::Job;
use page_plan::Plan;
use std::sync::Arc;
use stopped_heap::{Growth, Lane, Looks, Places, Tables};
use young_heap::OldTables;

/// The heap that is kept. Err with what is kept if it is none.
pub fn into_heap(kept: Kept) -> Result<MarkedHeap, Kept>
    ensures heap { IfOk result (λ heap. kept ≡ kinds.Heap heap) }
    ensures other { IfErr result (λ left. (left ≡ kept) × (heap_in (Some kept) ≡ None)) }
{
    match kept {
        Kept::Heap(heap) => Ok(heap),
        other => Err(other),
    }
}

/// The crew that is kept. Err with what is kept if it is none.
pub fn into_crew(kept: Kept) -> Result<Bench, Kept>
    ensures crew { IfOk result (λ bench. kept ≡ kinds.Crew bench) }
    ensures other { IfErr result (λ left. (left ≡ kept) × (crew_in (Some kept) ≡ None)) }
{
    match kept {
        Kept::Crew(bench) => Ok(bench),
        other => Err(other),
    }
}

/// The mutator that is kept. Err with what is kept if it is none.
pub fn into_mutator(kept: Kept) -> Result<Member, Kept>
    ensures mutator { IfOk result (λ m. kept ≡ kinds.Mutator m) }
    ensures other { IfErr result (λ left. (left ≡ kept) × (mutator_in (Some kept) ≡ None)) }
{
    match kept {
        Kept::Mutator(m) => Ok(m),
        other => Err(other),
    }
}

/// The finished cycle that is kept. Err with what is kept if it is none.
pub fn into_end(kept: Kept) -> Result<Ended, Kept>
    ensures end { IfOk result (λ e. kept ≡ kinds.Ended e) }
    ensures other { IfErr result (λ left. (left ≡ kept) × (end_in (Some kept) ≡ None)) }
{
    match kept {
        Kept::Ended(e) => Ok(e),
        other => Err(other),
    }
}

/// The survey that is kept. Err with what is kept if it is none.
pub fn into_survey(kept: Kept) -> Result<Arc<Places>, Kept>
    ensures survey { IfOk result (λ survey. kept ≡ kinds.Survey survey) }
    ensures other { IfErr result (λ left. (left ≡ kept) × (survey_in (Some kept) ≡ None)) }
{
    match kept {
        Kept::Survey(survey) => Ok(survey),
        other => Err(other),
    }
}

/// The tables that are kept. Err with what is kept if they are none.
pub fn into_tables(kept: Kept) -> Result<Tables, Kept>
    ensures tables { IfOk result (λ tables. kept ≡ kinds.Tables tables) }
    ensures other { IfErr result (λ left. (left ≡ kept) × (tables_in (Some kept) ≡ None)) }
{
    match kept {
        Kept::Tables(tables) => Ok(tables),
        other => Err(other),
    }
}

/// The survey that grows that is kept. Err with what is kept if it is none.
pub fn into_growing(kept: Kept) -> Result<Growth, Kept>
    ensures growing { IfOk result (λ growth. kept ≡ kinds.Growing growth) }
    ensures other { IfErr result (λ left. (left ≡ kept) × (growing_in (Some kept) ≡ None)) }
{
    match kept {
        Kept::Growing(growth) => Ok(growth),
        other => Err(other),
    }
}

/// The job that is kept. Err with what is kept if it is none.
pub fn into_job(kept: Kept) -> Result<Arc<Job>, Kept>
    ensures job { IfOk result (λ job. kept ≡ kinds.Job job) }
    ensures other { IfErr result (λ left. (left ≡ kept) × (job_in (Some kept) ≡ None)) }
{
    match kept {
        Kept::Job(job) => Ok(job),
        other => Err(other),
    }
}

/// The pages that are kept. Err with what is kept if they are none.
pub fn into_pages(kept: Kept) -> Result<Paging, Kept>
    ensures pages { IfOk result (λ pages. kept ≡ kinds.Pages pages) }
    ensures other { IfErr result (λ left. (left ≡ kept) × (pages_in (Some kept) ≡ None)) }
{
    match kept {
        Kept::Pages(pages) => Ok(pages),
        other => Err(other),
    }
}

/// The marking that is kept. Err with what is kept if it is none.
pub fn into_looks(kept: Kept) -> Result<Looks, Kept>
    ensures looks { IfOk result (λ looks. kept ≡ kinds.Looks looks) }
    ensures other { IfErr result (λ left. (left ≡ kept) × (looks_in (Some kept) ≡ None)) }
{
    match kept {
        Kept::Looks(looks) => Ok(looks),
        other => Err(other),
    }
}

/// The share of a marking that is kept. Err with what is kept if it is none.
pub fn into_marking(kept: Kept) -> Result<Marker, Kept>
    ensures marking { IfOk result (λ marker. kept ≡ kinds.Marking marker) }
    ensures other { IfErr result (λ left. (left ≡ kept) × (marking_in (Some kept) ≡ None)) }
{
    match kept {
        Kept::Marking(marker) => Ok(marker),
        other => Err(other),
    }
}

/// The lane that is kept. Err with what is kept if it is none.
pub fn into_lane(kept: Kept) -> Result<Lane, Kept>
    ensures lane { IfOk result (λ lane. kept ≡ kinds.Lane lane) }
    ensures other { IfErr result (λ left. (left ≡ kept) × (lane_in (Some kept) ≡ None)) }
{
    match kept {
        Kept::Lane(lane) => Ok(lane),
        other => Err(other),
    }
}

/// The heap that is kept. None if it is none.
pub fn as_heap(kept: &Kept) -> Option<&MarkedHeap>
    ensures { MatchOption result (heap_in (Some kept.now) ≡ None) (λ heap. kept.now ≡ kinds.Heap heap.now) }
{
    match kept {
        Kept::Heap(heap) => Some(heap),
        _ => None,
    }
}

/// The plan that is kept. None if it is none.
pub fn as_plan(kept: &Kept) -> Option<&Arc<Plan>>
    ensures { MatchOption result (plan_in (Some kept.now) ≡ None) (λ plan. kept.now ≡ kinds.Plan plan.now) }
{
    match kept {
        Kept::Plan(plan) => Some(plan),
        _ => None,
    }
}

/// The mutator that is kept. None if it is none.
pub fn as_mutator(kept: &Kept) -> Option<&Member>
    ensures { MatchOption result (mutator_in (Some kept.now) ≡ None) (λ m. kept.now ≡ kinds.Mutator m.now) }
{
    match kept {
        Kept::Mutator(m) => Some(m),
        _ => None,
    }
}

/// The finished cycle that is kept. None if it is none.
pub fn as_end(kept: &Kept) -> Option<&Ended>
    ensures { MatchOption result (end_in (Some kept.now) ≡ None) (λ e. kept.now ≡ kinds.Ended e.now) }
{
    match kept {
        Kept::Ended(e) => Some(e),
        _ => None,
    }
}

/// The survey that is kept. None if it is none.
pub fn as_survey(kept: &Kept) -> Option<&Arc<Places>>
    ensures { MatchOption result (survey_in (Some kept.now) ≡ None) (λ survey. kept.now ≡ kinds.Survey survey.now) }
{
    match kept {
        Kept::Survey(survey) => Some(survey),
        _ => None,
    }
}

/// The survey that grows that is kept. None if it is none.
pub fn as_growing(kept: &Kept) -> Option<&Growth>
    ensures { MatchOption result (growing_in (Some kept.now) ≡ None) (λ growth. kept.now ≡ kinds.Growing growth.now) }
{
    match kept {
        Kept::Growing(growth) => Some(growth),
        _ => None,
    }
}

/// The tables with a watermark that are kept. None if they are none.
pub fn as_old(kept: &Kept) -> Option<&OldTables>
    ensures { MatchOption result (old_in (Some kept.now) ≡ None) (λ tables. kept.now ≡ kinds.Old tables.now) }
{
    match kept {
        Kept::Old(tables) => Some(tables),
        _ => None,
    }
}

/// The job that is kept. None if it is none.
pub fn as_job(kept: &Kept) -> Option<&Arc<Job>>
    ensures { MatchOption result (job_in (Some kept.now) ≡ None) (λ job. kept.now ≡ kinds.Job job.now) }
{
    match kept {
        Kept::Job(job) => Some(job),
        _ => None,
    }
}

/// The pages that are kept. None if they are none.
pub fn as_pages(kept: &Kept) -> Option<&Paging>
    ensures { MatchOption result (pages_in (Some kept.now) ≡ None) (λ pages. kept.now ≡ kinds.Pages pages.now) }
{
    match kept {
        Kept::Pages(pages) => Some(pages),
        _ => None,
    }
}

/// The marking that is kept. None if it is none.
pub fn as_looks(kept: &Kept) -> Option<&Looks>
    ensures { MatchOption result (looks_in (Some kept.now) ≡ None) (λ looks. kept.now ≡ kinds.Looks looks.now) }
{
    match kept {
        Kept::Looks(looks) => Some(looks),
        _ => None,
    }
}

/// The share of a marking that is kept. None if it is none.
pub fn as_marking(kept: &Kept) -> Option<&Marker>
    ensures { MatchOption result (marking_in (Some kept.now) ≡ None) (λ marker. kept.now ≡ kinds.Marking marker.now) }
{
    match kept {
        Kept::Marking(marker) => Some(marker),
        _ => None,
    }
}

/// The lane that is kept. None if it is none.
pub fn as_lane(kept: &Kept) -> Option<&Lane>
    ensures { MatchOption result (lane_in (Some kept.now) ≡ None) (λ lane. kept.now ≡ kinds.Lane lane.now) }
{
    match kept {
        Kept::Lane(lane) => Some(lane),
        _ => None,
    }
}
