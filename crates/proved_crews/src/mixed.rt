//! Two crews whose mutators are mixed up.
ghost use Rattle.std.specs.Prelude.{◌≡◌, ◌≢◌, IsTrue};
ghost use Rattle.comp_crew.specs.declared.crew.Crew.{Crew};
ghost use Rattle.handle_base.specs.Answers.{bare};
ghost use Rattle.handle_base.specs.Statuses.{other_crew};
ghost use Rattle.proved_crews.specs.Crews.{AreMixed, KeepsCrew};

use crate::calls::{give, meet, take};
use flip_handle::{drop_kept, give_member};
use handle_base::{Answer, Handle};
use std::alloc::Global;

/// Hands a mutator to a crew of another name. It is refused as that of another crew, and nothing has changed.
pub fn give_wrongly(alloc: Global, crew: &mut Handle, m: &mut Handle) -> Answer
    requires { AreMixed crew.old.kept m.old.kept }
    ensures other { result ≡ bare other_crew 0 }
    ensures same { (crew.new.kept ≡ crew.old.kept) × (m.new.kept ≡ m.old.kept) }
{
    give_member(alloc, crew, m)
}

/// Ends a handle, whatever it keeps.
pub fn end(alloc: Global, mut h: Handle) {
    drop_kept(alloc, &mut h);
    h.end();
}

// Takes two mutators out of the first crew, lets them meet, and hands one of the second crew to the first: that is
// refused. Then each goes back to its own crew. Answers whether all that is allowed was done.
fn mix(
    alloc: Global,
    first: &mut Handle,
    second: &mut Handle,
    m: &mut Handle,
    n: &mut Handle,
    s: &mut Handle,
) -> bool
    requires { (c : Crew) × (d : Crew) × KeepsCrew c first.old.kept × KeepsCrew d second.old.kept × (c.name ≢ d.name) }
    ensures first { IsTrue result → (c : Crew) → KeepsCrew c first.old.kept → KeepsCrew c first.new.kept }
    ensures second { IsTrue result → (c : Crew) → KeepsCrew c second.old.kept → KeepsCrew c second.new.kept }
{
    if !take(alloc, first, m) {
        return false;
    }
    if !take(alloc, first, n) {
        return false;
    }
    if !meet(alloc, m, n) {
        return false;
    }
    if !take(alloc, second, s) {
        return false;
    }
    let _ = give_wrongly(alloc, first, s);
    if !give(alloc, second, s) {
        return false;
    }
    if !give(alloc, first, n) {
        return false;
    }
    give(alloc, first, m)
}

/// Takes two mutators out of the first crew, lets them meet, and hands one of the second crew to the first: that is
/// refused. Then each goes back to its own crew. Answers whether all that is allowed was done. The handles of the
/// mutators are its own.
pub fn mix_up(alloc: Global, first: &mut Handle, second: &mut Handle) -> bool
    requires { (c : Crew) × (d : Crew) × KeepsCrew c first.old.kept × KeepsCrew d second.old.kept × (c.name ≢ d.name) }
    ensures first { IsTrue result → (c : Crew) → KeepsCrew c first.old.kept → KeepsCrew c first.new.kept }
    ensures second { IsTrue result → (c : Crew) → KeepsCrew c second.old.kept → KeepsCrew c second.new.kept }
{
    let mut m = Handle::empty(alloc);
    let mut n = Handle::empty(alloc);
    let mut s = Handle::empty(alloc);
    let done = mix(alloc, first, second, &mut m, &mut n, &mut s);
    end(alloc, m);
    end(alloc, n);
    end(alloc, s);
    done
}
