//! What threads know.
ghost use Rattle.std.specs.Borrow.{ftrue};
ghost use Rattle.first_touch.specs.Asked.{Asked};
ghost use Rattle.first_touch.specs.Known.{Known, Met};

use std::marker::Model;

/// What a thread knows, as the rule of the pages reads it: what slides, what it knows of the pages, and
/// which word it found last. No value of it is ever made.
pub struct View {
    pub ghost about: { Asked },
    pub ghost known: { Known },
    pub ghost met: { Met },
}

impl Model for View {
    ghost also_owns = { λ _. ftrue };
}
