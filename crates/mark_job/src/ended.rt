//! What comes out of a job.
use stopped_heap::{Places, SurveyFault};

/// What comes out of a job that was finished: the words and roots, and what was found there, or why they are refused.
#[derive(Drop)]
pub struct Ended {
    pub words: Vec<u64>,
    pub roots: Vec<u64>,
    pub found: Result<Places, SurveyFault>,
}

/// The words and roots for which no job was begun, and why.
#[derive(Drop)]
pub struct NotBegun {
    pub fault: SurveyFault,
    pub words: Vec<u64>,
    pub roots: Vec<u64>,
}
