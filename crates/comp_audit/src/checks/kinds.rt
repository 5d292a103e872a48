//! Tests of the kind of a word.
ghost use Rattle.std.specs.Prelude.{◌≡◌, slice_get};
ghost use Rattle.comp_audit.specs.Checks.{is_kind, some_refers};

use heap_layout::Kind;

/// Whether there is a word and it is of this kind.
pub fn is_word_of(found: Option<Kind>, kind: Kind) -> bool
    ensures { result ≡ is_kind kind found }
{
    found == Some(kind)
}

/// Whether there is a word and it refers.
pub fn refers(found: Option<Kind>) -> bool
    ensures { result ≡ some_refers found }
{
    match found {
        Some(kind) => kind.refers(),
        None => false,
    }
}

/// Whether there is a word at this offset and it is of this kind.
pub fn is_of(kinds: &[Kind], offset: u8, kind: Kind) -> bool
    ensures { result ≡ is_kind kind (slice_get kinds.now offset) }
{
    match kinds.get(offset as usize) {
        Some(found) => *found == kind,
        None => false,
    }
}
