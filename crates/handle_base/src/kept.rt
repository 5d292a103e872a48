use crate::marker::Marker;
use crate::pages::Paging;
use comp_crew::{Bench, Ended, Member};
use heap_layout::MarkedHeap;
use mark_job::Job;
use page_plan::Plan;
use std::sync::Arc;
use stopped_heap::{Growth, Lane, Looks, Places, Tables};
use young_heap::OldTables;

/// What a handle keeps.
#[derive(Drop)]
pub enum Kept {
    /// Nothing.
    Nothing,
    /// A marked heap.
    Heap(MarkedHeap),
    /// A plan.
    Plan(Arc<Plan>),
    /// A crew, with its mutators that no thread has.
    Crew(Bench),
    /// One mutator of a crew.
    Mutator(Member),
    /// A finished heap.
    Ended(Ended),
    /// What a survey of a heap at rest found.
    Survey(Arc<Places>),
    /// Tables for surveys.
    Tables(Tables),
    /// A survey of a heap at rest that grows.
    Growing(Growth),
    /// Tables for young collections, which know a watermark.
    Old(OldTables),
    /// A job that marks a heap at rest.
    Job(Arc<Job>),
    /// The pages of a slide by first touch.
    Pages(Paging),
    /// A marking by looks that goes on.
    Looks(Looks),
    /// A share of a marking by many threads, and what its handle knows of it.
    Marking(Marker),
    /// What one of several markers of a heap met and looked at.
    Lane(Lane),
}
