//! Finds the fields of objects.
ghost use Rattle.std.specs.Prelude.{◌≡◌, ℕ, ◌+◌, ◌<◌, ◌≤◌, ◌^◌, IfOk, IfErr, IfSome, IfNone, IsErrOf, OnOk, true};
ghost use Rattle.heap_layout.specs.Header.{size_of};
ghost use Rattle.heap_layout.specs.Kinds.{count_of, refers};
ghost use Rattle.cell_steps.specs.Starts.{IsForwardingAddress};
ghost use Rattle.cell_steps.specs.Passes.{builds_of, did, seen, HasSeenBuilt, MayRefer, Rests};
ghost use Rattle.page_cells.specs.CellViews.{mutators_of, page_number, setup_of, Has, IsPassOf};
ghost use Rattle.page_cells.specs.Calls.{Grows, WroteNothing};
ghost use Rattle.page_cells.specs.Objects.{HasFields, HasShape};
ghost use Rattle.page_cells.specs.Objects as objects;
ghost use Rattle.comp_access.specs.Fields.{field_address, IsFreshObject};
ghost use Rattle.comp_access.specs.Finds.{HoldsField, IsEarly, IsFound, IsFreshField};
ghost use Rattle.comp_access.specs.Reads.{FieldRefused, KnowsBuilt, MayBuildTouched, Reads};
ghost use Rattle.comp_access.specs.declared.refusal.Refusal.TheVariants.{Busy};

use crate::addresses::{offset_at, page_at};
use crate::refusal::Refusal;
use crate::taking::{load, take};
use cell_steps::Pass;
use heap_layout::{Header, Kind};
use page_cells::{Cells, Taken};
use page_plan::Builder;
use std::alloc::Global;

/// The field that a call is about: its object, its kind, and its index among the fields of that kind.
#[derive(Clone, Copy)]
pub(crate) struct FieldName {
    pub(crate) object: u64,
    pub(crate) field: u32,
    pub(crate) kind: Kind,
}

/// Where a field was found.
#[derive(Clone, Copy)]
pub(crate) enum Found {
    /// In an object of the slid heap. The number is the address of the field's word.
    Slid(u64),
    /// In an object that an allocation made, if it has this field. Its header must be loaded from its page.
    Fresh,
}

/// The page of a field, which the pass has taken, and the offset of the field's word on it.
pub(crate) struct Held {
    pub(crate) taken: Taken,
    pub(crate) offset: u8,
}

// The address of a field's word; None if the object has no field like this.
#[inline(always)]
fn address_of_field(header: Header, name: FieldName) -> Option<u64>
    requires { name.object + size_of header < 2 ^ 64 }
    ensures some { IfSome result (λ address. (name.field < count_of name.kind header) × (address ≡ field_address name.kind name.object header name.field)) }
    ensures none { IfNone result (count_of name.kind header ≤ name.field) }
{
    let FieldName {
        object,
        field,
        kind,
    } = name;
    if field < header.count(kind) {
        Some(object + u64::from(header.first(kind)) + u64::from(field))
    } else {
        None
    }
}

/// Finds a field without touching a page. Refusals: `Null`, `NotAStart` of the object, and `NoSuchField` of a slid
/// object.
#[inline(always)]
pub(crate) fn find<B: Builder>(
    cells: &Cells<B>,
    pass: &mut Pass,
    name: FieldName,
) -> Result<Found, Refusal>
    requires { IsPassOf cells.now pass.old × Rests pass.old }
    ensures of { IsPassOf cells.now pass.new × Rests pass.new }
    ensures grows { Grows pass.old pass.new × WroteNothing pass.old pass.new }
    ensures builds { builds_of pass.new ≡ builds_of pass.old }
    ensures found { IfOk result (IsFound (setup_of cells.now) pass.new name.kind name.object name.field) }
    ensures refused { IfErr result (FieldRefused (setup_of cells.now) pass.old pass.new name.kind name.object name.field) }
    ensures early { IfErr result IsEarly }
{
    let object = name.object;
    if object == 0 {
        return Err(Refusal::Null);
    }
    if let Some(header) = cells.compacted_header(object) {
        return match address_of_field(header, name) {
            Some(address) => Ok(Found::Slid(address)),
            None => Err(Refusal::NoSuchField),
        };
    }
    if cells.start_known(pass, object) {
        Ok(Found::Fresh)
    } else {
        Err(Refusal::NotAStart(object))
    }
}

/// The header of an object that an allocation made. It loads the header's word; the page is built, so this is never
/// busy.
#[inline(always)]
pub(crate) fn fresh_header<B: Builder>(
    alloc: Global,
    cells: &Cells<B>,
    pass: &mut Pass,
    object: u64,
) -> Header
    requires of { IsPassOf cells.now pass.old × Rests pass.old }
    requires fresh { IsFreshObject (setup_of cells.now) pass.old object }
    ensures of { IsPassOf cells.now pass.new × Rests pass.new }
    ensures grows { Grows pass.old pass.new × (did pass.new ≡ did pass.old) }
    ensures builds { builds_of pass.new ≡ builds_of pass.old }
    ensures fresh { IsFreshObject (setup_of cells.now) pass.new object }
    ensures edition { result.edition ≡ (setup_of cells.now).heap.edition }
    ensures shape { HasShape (setup_of cells.now) (seen pass.new) object result }
    ensures fields { HasFields (setup_of cells.now) (seen pass.new) object result }
    ensures ends { objects.offset_at object + size_of result ≤ 64 }
{
    match load(alloc, cells, pass, page_at(object), offset_at(object)) {
        Ok(word) => Header::from_word_of(cells.edition(), word),
        Err(_) => unreachable!(),
    }
}

/// The address of a field's word in an object that an allocation made. It loads the object's header.
#[inline(always)]
pub(crate) fn fresh_field<B: Builder>(
    alloc: Global,
    cells: &Cells<B>,
    pass: &mut Pass,
    name: FieldName,
) -> Result<u64, Refusal>
    requires of { IsPassOf cells.now pass.old × Rests pass.old }
    requires fresh { IsFreshObject (setup_of cells.now) pass.old name.object }
    ensures of { IsPassOf cells.now pass.new × Rests pass.new }
    ensures grows { Grows pass.old pass.new × (did pass.new ≡ did pass.old) }
    ensures builds { builds_of pass.new ≡ builds_of pass.old }
    ensures found { IfOk result (IsFreshField (setup_of cells.now) pass.new name.kind name.object name.field) }
    ensures refused { IfErr result (FieldRefused (setup_of cells.now) pass.old pass.new name.kind name.object name.field) }
    ensures early { IfErr result IsEarly }
{
    let header = fresh_header(alloc, cells, pass, name.object);
    match address_of_field(header, name) {
        Some(address) => Ok(address),
        None => Err(Refusal::NoSuchField),
    }
}

/// Takes the page of a field of an object that an allocation made. It finds the field first.
#[inline(never)]
pub(crate) fn take_fresh<B: Builder>(
    alloc: Global,
    cells: &Cells<B>,
    pass: &mut Pass,
    name: FieldName,
) -> Result<Held, Refusal>
    requires of { IsPassOf cells.now pass.old × Rests pass.old }
    requires fresh { IsFreshObject (setup_of cells.now) pass.old name.object }
    ensures of { IsPassOf cells.now pass.new }
    ensures grows { Grows pass.old pass.new × (did pass.new ≡ did pass.old) }
    ensures builds { builds_of pass.new ≡ builds_of pass.old }
    ensures alone { mutators_of cells.now ≡ 1 → (q : ℕ) → IsErrOf result (Busy q) → ⊥ }
    ensures held { IfOk result (λ held. Has cells.now pass.new held.taken × (held.offset < 64)) }
    ensures field { IfOk result (λ held. HoldsField (setup_of cells.now) pass.old pass.new name.kind name.object name.field (page_number held.taken) held.offset) }
    ensures refused { IfErr result (λ refusal. Rests pass.new × FieldRefused (setup_of cells.now) pass.old pass.new name.kind name.object name.field refusal) }
{
    let address = fresh_field(alloc, cells, pass, name)?;
    let taken = take(alloc, cells, pass, page_at(address))?;
    Ok(Held {
        taken,
        offset: offset_at(address),
    })
}

/// Takes the page of a field that was found.
#[inline(always)]
pub(crate) fn take_found<B: Builder>(
    alloc: Global,
    cells: &Cells<B>,
    pass: &mut Pass,
    name: FieldName,
    found: Found,
) -> Result<Held, Refusal>
    requires of { IsPassOf cells.now pass.old × Rests pass.old }
    requires found { IsFound (setup_of cells.now) pass.old name.kind name.object name.field found }
    ensures of { IsPassOf cells.now pass.new }
    ensures grows { Grows pass.old pass.new × (did pass.new ≡ did pass.old) }
    ensures alone { mutators_of cells.now ≡ 1 → (q : ℕ) → IsErrOf result (Busy q) → ⊥ }
    ensures held { IfOk result (λ held. Has cells.now pass.new held.taken × (held.offset < 64)) }
    ensures field { IfOk result (λ held. HoldsField (setup_of cells.now) pass.old pass.new name.kind name.object name.field (page_number held.taken) held.offset) }
    ensures refused { IfErr result (λ refusal. Rests pass.new × FieldRefused (setup_of cells.now) pass.old pass.new name.kind name.object name.field refusal) }
{
    match found {
        Found::Slid(address) => {
            let taken = take(alloc, cells, pass, page_at(address))?;
            Ok(Held {
                taken,
                offset: offset_at(address),
            })
        }
        Found::Fresh => take_fresh(alloc, cells, pass, name),
    }
}

/// Loads the word of a field that was found.
#[inline(always)]
pub(crate) fn load_found<B: Builder>(
    alloc: Global,
    cells: &Cells<B>,
    pass: &mut Pass,
    name: FieldName,
    found: Found,
) -> Result<u64, Refusal>
    requires of { IsPassOf cells.now pass.old × Rests pass.old }
    requires found { IsFound (setup_of cells.now) pass.old name.kind name.object name.field found }
    ensures of { IsPassOf cells.now pass.new × Rests pass.new }
    ensures grows { Grows pass.old pass.new × (did pass.new ≡ did pass.old) }
    ensures alone { mutators_of cells.now ≡ 1 → (q : ℕ) → IsErrOf result (Busy q) → ⊥ }
    ensures read { IfOk result (Reads (setup_of cells.now) (seen pass.new) name.kind name.object name.field) }
    ensures leads { refers name.kind ≡ true → IfOk result (MayRefer pass.new) }
    ensures builds { OnOk result (MayBuildTouched (setup_of cells.now) pass.old pass.new name.kind name.object name.field) }
    ensures free { (q : ℕ) → IsErrOf result (Busy q) → KnowsBuilt pass.old q → ⊥ }
    ensures slid { (q : ℕ) → IsErrOf result (Busy q) → IsForwardingAddress (setup_of cells.now).heap name.object }
    ensures unseen { (q : ℕ) → IsErrOf result (Busy q) → HasSeenBuilt pass.new q → ⊥ }
    ensures refused { IfErr result (FieldRefused (setup_of cells.now) pass.old pass.new name.kind name.object name.field) }
{
    match found {
        Found::Slid(address) => load(alloc, cells, pass, page_at(address), offset_at(address)),
        Found::Fresh => {
            let address = fresh_field(alloc, cells, pass, name)?;
            match load(alloc, cells, pass, page_at(address), offset_at(address)) {
                Ok(word) => Ok(word),
                Err(_) => unreachable!(),
            }
        }
    }
}
