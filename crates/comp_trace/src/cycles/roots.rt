//! The words that roots name.
ghost use Rattle.std.specs.Prelude.{◌≡◌, ℕ, All, IfOk, List, length, map};
ghost use Rattle.comp_trace.specs.Replays.{Hold};
ghost use Rattle.comp_trace.specs.RootsText.{IsRootWithin};
ghost use Rattle.comp_trace.specs.RootsNamed.{word_named};

use crate::text::NewRoot;
use std::alloc::{AllocError, Global};

/// The words that these roots name, in their order: an address is itself, and a register names the word that it holds.
/// `registers` has the words in the registers of each mutator. Err if out of memory.
///
/// Requires that each mutator that a root names is there.
pub fn root_words(
    alloc: Global,
    registers: &[[u64; 16]],
    roots: &[NewRoot],
) -> Result<Vec<u64>, AllocError>
    requires { All (IsRootWithin (length registers.now)) roots.now }
    ensures { IfOk result (λ words. (now : ℕ → List ℕ) → Hold (length registers.now) registers.now now → words.items ≡ map (word_named now) roots.now) }
{
    let mut words = Vec::with_capacity(alloc, roots.len())?;
    for root in roots {
        words.push_reserved(root_word(registers, *root));
    }
    Ok(words)
}

// The word that a root names.
fn root_word(registers: &[[u64; 16]], root: NewRoot) -> u64
    requires { IsRootWithin (length registers.now) root }
    ensures { (now : ℕ → List ℕ) → Hold (length registers.now) registers.now now → result ≡ word_named now root }
{
    match root {
        NewRoot::Address(address) => address,
        NewRoot::Register { mutator, register } => {
            registers[usize::from(mutator)][usize::from(register)]
        }
    }
}
