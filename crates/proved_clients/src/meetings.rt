//! What a mutator reads of another one's writes after they met.
ghost use Rattle.std.specs.Prelude.{◌≡◌, ℕ, IfOk};
ghost use Rattle.page_cells.specs.Lists.{StartsWith};
ghost use Rattle.page_cells.specs.Passes.{number_of, seen};
ghost use Rattle.comp_mutator.specs.Mutators.{pass_of, setup_of, IsMutatorOf};

use comp_mutator::{Builder, Mutator, Refusal, Space};
use std::alloc::Global;
use std::sync::ledger::Ledger as Named;

/// The first of two mutators writes a value into a data field, and the second, which it then meets, reads the field. If
/// both succeed, the word is the value. Before, the first has seen all that the second has, as new mutators have and
/// those that met. They meet once more at the end, which shows that nobody wrote meanwhile.
pub fn read_after_meeting<L: Named, B: Builder>(
    alloc: Global,
    space: &Space<L, B>,
    m0: &mut Mutator<L>,
    m1: &mut Mutator<L>,
    object: u64,
    field: u16,
    value: u64,
) -> (Result<u64, Refusal>, Result<u64, Refusal>)
    requires first { IsMutatorOf space.now m0.old × (number_of (pass_of m0.old) ≡ 0) }
    requires second { IsMutatorOf space.now m1.old × (number_of (pass_of m1.old) ≡ 1) }
    requires two { (setup_of space.now).mutators ≡ 2 }
    requires seen { (p : ℕ) → StartsWith (seen (pass_of m0.old) p) (seen (pass_of m1.old) p) }
    ensures read { IfOk result.0 (λ stamp. IfOk result.1 (λ word. word ≡ value)) }
{
    let stamp = space.try_write_data(alloc, m0, object, field, value);
    space.meet(m0, m1);
    let word = space.try_read_data(alloc, m1, object, field);
    space.meet(m0, m1);
    comp_mutator::fields_keep_their_addresses(space);
    page_cells::last_written();
    (stamp, word)
}
