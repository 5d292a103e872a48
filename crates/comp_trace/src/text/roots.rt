//! Reads the texts of roots.
ghost use Rattle.std.specs.Prelude.{◌≡◌, ℕ, All, List, [], ◌∷◌, Ok, IfErr, IfNone, IfOk, IfSome};
ghost use Rattle.comp_trace.specs.declared.text.roots.RootsFault.TheVariants as faults;
ghost use Rattle.comp_trace.specs.Fronts.{size};
ghost use Rattle.comp_trace.specs.RootsText.{new_roots_of, root_named, IsRootWithin, RefusesRoots, RootBefore};

use crate::text::numbers::{Number, below, one_number, two_numbers};
use std::alloc::{AllocFailed, Global};

/// A root of the next heap, as a text names it.
#[derive(Clone, Copy, Debug, PartialEq, Eq)]
pub enum NewRoot {
    /// The object that starts at this to-space address, or none for 0.
    Address(u64),
    /// The word in this register, 0 to 15, of this mutator.
    Register { mutator: u8, register: u8 },
}

/// Why roots were not read.
#[derive(Clone, Copy, Debug, PartialEq, Eq)]
pub enum RootsFault {
    /// The line of this number, counted from 1, is not a root.
    BadRoots(u64),
    /// Out of memory.
    OutOfMemory,
}

impl<T: Drop> From<AllocFailed<T>> for RootsFault {
    ghost from_gives = { λ _ given. given ≡ faults.OutOfMemory };

    fn from(_fault: AllocFailed<T>) -> RootsFault {
        RootsFault::OutOfMemory
    }
}

/// Reads the text of roots for this number of mutators: one root on each line, and each line ended by a line feed. A
/// root is an address of 64 bits; or the number of a mutator, a blank and the number of a register. If a line is not a
/// root, the fault is `BadRoots` with the number of the first such line, counted from 1.
pub fn read_roots(alloc: Global, text: &[u8], mutators: u8) -> Result<Vec<NewRoot>, RootsFault>
    ensures roots { IfOk result (λ roots. new_roots_of mutators text.now ≡ Ok roots.items) }
    ensures within { IfOk result (λ roots. All (IsRootWithin mutators) roots.items) }
    ensures cause { IfErr result (λ fault. RefusesRoots fault (new_roots_of mutators text.now)) }
{
    let mut roots = Vec::new(alloc);
    let mut n = 1;
    let mut rest = text;
    while !rest.is_empty() {
        let Some((root, more)) = read_root(rest, mutators) else {
            return Err(RootsFault::BadRoots(n));
        };
        roots.push(root)?;
        n += 1;
        rest = more;
    }
    Ok(roots)
}

// Reads the root at the front of a text, before a line feed. Answers it and the text after the line feed.
fn read_root(text: &[u8], mutators: u8) -> Option<(NewRoot, &[u8])>
    ensures some { IfSome result (λ read. RootBefore mutators text.now read.0 read.1.now) }
    ensures none { IfNone result ((root : NewRoot) (rest : List ℕ) → RootBefore mutators text.now root rest → ⊥) }
{
    if let Some((number, rest)) = one_number(text) {
        let Some(root) = address(number) else {
            return None;
        };
        return Some((root, rest));
    }
    let Some((mutator, number, rest)) = two_numbers(text) else {
        return None;
    };
    let Some(root) = register(mutators, mutator, number) else {
        return None;
    };
    Some((root, rest))
}

// The root that an address names, if it fits 64 bits.
fn address(number: Number) -> Option<NewRoot>
    ensures { (mutators : ℕ) → result ≡ root_named mutators (size number ∷ []) }
{
    match number {
        Number::Small(address) => Some(NewRoot::Address(address)),
        Number::Large => None,
    }
}

// The root that the numbers of a mutator and of a register name, if there are such.
fn register(mutators: u8, mutator: Number, register: Number) -> Option<NewRoot>
    ensures { result ≡ root_named mutators (size mutator ∷ size register ∷ []) }
{
    let Some(mutator) = below(mutator, u64::from(mutators)) else {
        return None;
    };
    let Some(register) = below(register, 16) else {
        return None;
    };
    Some(NewRoot::Register {
        mutator: mutator as u8,
        register: register as u8,
    })
}
