//! The kinds of a page's words. The plan gives them for a compacted page, the journal for a fresh page.
ghost use Rattle.std.specs.Prelude.{◌≡◌, ℕ, ◌+◌, ◌<◌, ◌≤◌, ◌++◌, IfOk, length, replicate, slice_get, slice_index_or, vec_capacity, vec_len, None};
ghost use Rattle.heap_layout.specs.Heap.{live};
ghost use Rattle.page_plan.specs.Sliding as sliding;
ghost use Rattle.cell_steps.specs.Lawful.{filled, kind_at, kinds_by, kinds_in, kinds_of_header};
ghost use Rattle.cell_steps.specs.Setup.{Setup};

use comp_journal::Entry;
use heap_layout::{Edition, Header, Kind};
use page_plan::Plan;
use std::alloc::{AllocError, Global};

/// The kind of each word of page `p` with this journal; None for a word that belongs to no object. The only refusal is
/// out of memory. Requires that the objects of the journal fit on a page.
pub fn kinds_on(
    alloc: Global,
    plan: &Plan,
    p: u64,
    journal: &[Entry],
) -> Result<[Option<Kind>; 64], AllocError>
    requires { filled plan.now.edition journal.now ≤ 64 }
    ensures { IfOk result (λ kinds. (u : Setup) → u.heap ≡ plan.now → u.compacted ≡ sliding.pages (live plan.now)
        → (offset : ℕ) → offset < 64 → slice_index_or kinds offset None ≡ kind_at u p journal.now offset) }
{
    if p < plan.pages() {
        Ok(plan.page_kinds(p))
    } else {
        let kinds = kinds_made(alloc, plan.heap().edition(), journal)?;
        Ok(spread(&kinds))
    }
}

// The kinds of the words of all objects that a journal makes. Requires that the objects fit on a page.
fn kinds_made(alloc: Global, edition: Edition, journal: &[Entry]) -> Result<Vec<Kind>, AllocError>
    requires { filled edition journal.now ≤ 64 }
    ensures { IfOk result (λ kinds. kinds.items ≡ kinds_in edition journal.now) }
{
    let mut kinds = Vec::with_capacity(alloc, 64)?;
    for &entry in journal {
        add_kinds(&mut kinds, edition, entry);
    }
    Ok(kinds)
}

// The same kinds, with an entry for each word of a page: None after the last of them.
fn spread(kinds: &[Kind]) -> [Option<Kind>; 64]
    requires { length kinds.now ≤ 64 }
    ensures { (offset : ℕ) → slice_index_or result offset None ≡ slice_get kinds.now offset }
{
    let mut all = [None; 64];
    for (offset, &kind) in kinds.iter().enumerate() {
        all[offset] = Some(kind);
    }
    all
}

/// Adds the kinds of the words of the object that an entry makes: nothing if it is no header. Requires room for them.
pub fn add_kinds(kinds: &mut Vec<Kind>, edition: Edition, entry: Entry)
    requires { vec_len kinds.old + length (kinds_by edition entry.kind entry.value) ≤ vec_capacity kinds.old }
    ensures items { kinds.new.items ≡ kinds.old.items ++ kinds_by edition entry.kind entry.value }
    ensures capacity { vec_capacity kinds.new ≡ vec_capacity kinds.old }
{
    match entry.kind {
        Kind::Header => push_object(kinds, Header::from_word_of(edition, entry.value)),
        Kind::Reference => (),
        Kind::Weak => (),
        Kind::Data => (),
    }
}

// Adds the kinds of the words of an object with this header. Requires room for them.
fn push_object(kinds: &mut Vec<Kind>, header: Header)
    requires { vec_len kinds.old + length (kinds_of_header header) ≤ vec_capacity kinds.old }
    ensures items { kinds.new.items ≡ kinds.old.items ++ kinds_of_header header }
    ensures capacity { vec_capacity kinds.new ≡ vec_capacity kinds.old }
{
    kinds.push_reserved(Kind::Header);
    push_kinds(kinds, header.refs(), Kind::Reference);
    push_kinds(kinds, header.weak(), Kind::Weak);
    push_kinds(kinds, header.data_words(), Kind::Data);
}

// Adds `count` words of a kind. Requires room for them.
fn push_kinds(kinds: &mut Vec<Kind>, count: u32, kind: Kind)
    requires { vec_len kinds.old + count ≤ vec_capacity kinds.old }
    ensures items { kinds.new.items ≡ kinds.old.items ++ replicate count kind }
    ensures capacity { vec_capacity kinds.new ≡ vec_capacity kinds.old }
{
    for _ in 0..count {
        kinds.push_reserved(kind);
    }
}
