//! What a mutator may do with a page that it copied or read, whatever the others do.
ghost use Rattle.std.specs.Prelude.{◌≡◌, ◌^◌, ◌<◌, ℕ, Ok, IfOk, IsErrOf};
ghost use mathlib.Core.Option.{some};
ghost use lib.ListN.{get_elem?};
ghost use Rattle.page_plan.specs.Kind.TheVariants.{Header, Reference};
ghost use Rattle.page_cells.specs.Lawful.{IsField};
ghost use Rattle.page_cells.specs.Setup.{pages};
ghost use Rattle.comp_mutator.specs.Copies.{IsCopy};
ghost use Rattle.comp_mutator.specs.Mutators.{pass_of, setup_of, IsMutatorOf};
ghost use Rattle.comp_mutator.specs.Touched.TheVariants.{AlreadyBuilt};
ghost use Rattle.comp_mutator.specs.Refusal.TheVariants.{NotAStart, OutOfMemory};

use comp_journal::Entry;
use comp_mutator::{Builder, Mutator, PageCopy, Refusal, Space, Touched};
use page_plan::TO_SPACE;
use std::alloc::Global;
use std::sync::ledger::Ledger as Named;

/// A copied page is known to be built.
pub fn touch_copied<L: Named, B: Builder>(
    alloc: Global,
    space: &Space<L, B>,
    m: &mut Mutator<L>,
    p: u64,
) -> Result<Result<Touched, Refusal>, Refusal>
    requires of { IsMutatorOf space.now m.old }
    requires inside { p < pages (setup_of space.now) }
    ensures touched { IfOk result (λ touched. touched ≡ Ok AlreadyBuilt) }
{
    space.page_copy(alloc, m, p)?;
    Ok(space.try_touch(alloc, m, p))
}

/// A read that succeeded needs no memory when it is made again.
pub fn read_again<L: Named, B: Builder>(
    alloc: Global,
    space: &Space<L, B>,
    m: &mut Mutator<L>,
    object: u64,
    field: u16,
) -> Result<Result<u64, Refusal>, Refusal>
    requires of { IsMutatorOf space.now m.old }
    ensures again { IfOk result (λ again. IsErrOf again OutOfMemory → ⊥) }
{
    space.try_read_data(alloc, m, object, field)?;
    Ok(space.try_read_data(alloc, m, object, field))
}

/// Stores a reference of a copied page. It is never refused with `NotAStart`.
pub fn store_reference<L: Named, B: Builder>(
    alloc: Global,
    space: &Space<L, B>,
    m: &mut Mutator<L>,
    copy: &PageCopy,
    _p: u64,
    offset: u8,
    object: u64,
    field: u16,
) -> Result<u64, Refusal>
    requires of { IsMutatorOf space.now m.old }
    requires copied { IsCopy (setup_of space.now) (pass_of m.old) _p copy.now }
    requires reference { IsField (setup_of space.now) _p copy.now.journal.items Reference offset }
    requires inside { offset < 64 }
    ensures stored { (a : ℕ) → IsErrOf result (NotAStart a) → a ≡ object }
{
    let value = copy.words.get(offset);
    space.try_write_ref(alloc, m, object, field, value)
}

/// Stores the address of an object that the journal of a copied page makes. It is never refused with `NotAStart`.
pub fn store_made<L: Named, B: Builder>(
    alloc: Global,
    space: &Space<L, B>,
    m: &mut Mutator<L>,
    _copy: &PageCopy,
    p: u64,
    made: Entry,
    object: u64,
    field: u16,
) -> Result<u64, Refusal>
    requires of { IsMutatorOf space.now m.old }
    requires copied { IsCopy (setup_of space.now) (pass_of m.old) p _copy.now }
    requires small { p < 2 ^ 32 }
    requires made { (i : ℕ) × (get_elem? _copy.now.journal.items i ≡ some made) × (made.kind ≡ Header) }
    ensures stored { (a : ℕ) → IsErrOf result (NotAStart a) → a ≡ object }
{
    let value = TO_SPACE + 64 * p + u64::from(made.offset);
    space.try_write_ref(alloc, m, object, field, value)
}
