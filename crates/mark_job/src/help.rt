//! What a helper did.
/// What a call of `Job::help` did.
#[derive(Clone, Copy, Debug, PartialEq, Eq)]
pub enum Help {
    /// It looked at some objects. Call again.
    Worked,
    /// It did nothing: other threads have the objects that wait. Call again later.
    Idle,
    /// Nothing is left to help with. The job may be finished.
    Done,
}
