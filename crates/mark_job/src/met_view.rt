//! What a thread knows of the objects that were met.
ghost use Rattle.std.specs.Borrow.{ftrue};
ghost use Rattle.std.specs.Prelude.{ℕ, List};

use std::marker::Model;

/// The bits of objects that were met, as the rule of the bits reads it. No value of it is ever made.
pub struct MetView {
    pub ghost bits: { List ℕ },
}

impl Model for MetView {
    ghost also_owns = { λ _. ftrue };
}
