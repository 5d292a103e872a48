use comp_dump::AuditFault;

/// What an audit answers: no fault, or the first fault.
#[derive(Clone, Copy, Debug, PartialEq, Eq)]
pub enum Verdict {
    Yes,
    No(AuditFault),
}
