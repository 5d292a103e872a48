use comp_dump::{AuditFault, Dump};

/// A dump that is drawn, what its audit found, and what is said of it.
#[derive(Drop)]
pub struct DumpView<'a> {
    /// The dump. It should be one of the heap that is drawn; a dump of another heap is drawn as far as it has pages.
    pub dump: &'a Dump<'a>,
    /// The fault that the audit found, if it found one.
    pub fault: Option<AuditFault>,
    /// What is said of that fault, in lines. It is drawn as text.
    pub told: &'a str,
}
