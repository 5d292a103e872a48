//! Reads the names of lines.
ghost use Rattle.std.specs.Prelude.{◌≡◌, ◌∷◌, ◌++◌, List, ℕ, IfNone, IfSome};
ghost use Rattle.comp_trace.specs.Fronts.{written};

/// The name of a line, which says what the line does.
#[derive(Clone, Copy)]
pub(crate) enum Name {
    Root,
    Load,
    Get,
    Store,
    Put,
    New,
    Nil,
    Immediate,
    WeakLoad,
    WeakStore,
    WeakNew,
}

// The text after this word and a blank, if the text begins with them.
#[inline(always)]
fn behind<'a>(text: &'a [u8], word: &[u8]) -> Option<&'a [u8]>
    ensures some { IfSome result (λ rest. text.now ≡ word.now ++ 32 ∷ rest.now) }
    ensures none { IfNone result ((rest : List ℕ) → text.now ≡ word.now ++ 32 ∷ rest → ⊥) }
{
    let Some(rest) = text.strip_prefix(word) else {
        return None;
    };
    if rest.is_empty() {
        return None;
    }
    if rest[0] != b' ' {
        return None;
    }
    Some(&rest[1..])
}

/// Reads the name at the front of a text, before a blank. Answers it and the text after the blank.
#[inline(always)]
pub(crate) fn read_name(text: &[u8]) -> Option<(Name, &[u8])>
    ensures some { IfSome result (λ read. text.now ≡ written read.0 ++ 32 ∷ read.1.now) }
    ensures none { IfNone result ((name : Name) (rest : List ℕ) → text.now ≡ written name ++ 32 ∷ rest → ⊥) }
{
    if let Some(rest) = behind(text, b"load") {
        Some((Name::Load, rest))
    } else if let Some(rest) = behind(text, b"get") {
        Some((Name::Get, rest))
    } else if let Some(rest) = behind(text, b"store") {
        Some((Name::Store, rest))
    } else if let Some(rest) = behind(text, b"put") {
        Some((Name::Put, rest))
    } else if let Some(rest) = behind(text, b"new") {
        Some((Name::New, rest))
    } else if let Some(rest) = behind(text, b"nil") {
        Some((Name::Nil, rest))
    } else if let Some(rest) = behind(text, b"imm") {
        Some((Name::Immediate, rest))
    } else if let Some(rest) = behind(text, b"root") {
        Some((Name::Root, rest))
    } else if let Some(rest) = behind(text, b"wload") {
        Some((Name::WeakLoad, rest))
    } else if let Some(rest) = behind(text, b"wstore") {
        Some((Name::WeakStore, rest))
    } else if let Some(rest) = behind(text, b"wnew") {
        Some((Name::WeakNew, rest))
    } else {
        None
    }
}
