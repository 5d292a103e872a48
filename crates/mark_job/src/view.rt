//! What a helper knows.
ghost use Rattle.std.specs.Borrow.{ftrue};
ghost use Rattle.mark_job.specs.Asked.{Asked};

use std::marker::Model;

/// What a helper knows, as the rule of the lanes reads it: the heap that is marked. No value of it is ever made.
pub struct View {
    pub ghost about: { Asked },
}

impl Model for View {
    ghost also_owns = { λ _. ftrue };
}
