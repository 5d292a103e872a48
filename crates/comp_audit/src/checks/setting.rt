use comp_dump::Dump;
use page_plan::Plan;

/// What is checked: the plan of a compaction, and the dump that it may have left.
#[derive(Clone, Copy)]
pub struct Setting<'a> {
    pub plan: &'a Plan,
    pub dump: &'a Dump<'a>,
}
