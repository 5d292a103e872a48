//! What threads know of turns.
ghost use Rattle.std.specs.Borrow.{ftrue};
ghost use Rattle.first_touch.specs.Known.{Known, Met};

use std::marker::Model;

/// What a thread knows, as the rule of the turns reads it: what it knows of the pages, and which word it found
/// last. No value of it is ever made.
pub struct TurnView {
    pub ghost known: { Known },
    pub ghost met: { Met },
}

impl Model for TurnView {
    ghost also_owns = { λ _. ftrue };
}
