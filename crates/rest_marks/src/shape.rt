//! What a header says, read at once.
ghost use Rattle.std.specs.Prelude.{◌≡◌, ◌+◌, ◌^◌, ◌<◌, ◌≤◌};
ghost use Rattle.heap_layout.specs.declared.edition.Edition.TheVariants.{Three};
ghost use Rattle.heap_layout.specs.Header.{header_of, refs_of, weak_of, size_of};

use heap_layout::Edition;

/// How many references and weak words an object has, and how many words with its header.
#[derive(Clone, Copy)]
pub struct Shape {
    pub refs: usize,
    pub weak: usize,
    pub size: usize,
}

// The shape of an object with these fields.
#[inline(always)]
fn with_fields(refs: u64, weak: u64, data_words: u64) -> Shape
    requires refs { refs < 2 ^ 31 }
    requires weak { weak < 2 ^ 31 }
    requires data_words { data_words < 2 ^ 31 }
    ensures refs { result.refs ≡ refs }
    ensures weak { result.weak ≡ weak }
    ensures size { result.size ≡ 1 + refs + weak + data_words }
{
    Shape {
        refs: refs as usize,
        weak: weak as usize,
        size: (1 + refs + weak + data_words) as usize,
    }
}

// The shape of an object with a header of edition three or four that is not mixed.
#[cold]
fn long_shape(word: u64) -> Shape
    requires { 2 ^ 62 ≤ word }
    ensures refs { result.refs ≡ refs_of (header_of Three word) }
    ensures weak { result.weak ≡ weak_of (header_of Three word) }
    ensures size { result.size ≡ size_of (header_of Three word) }
{
    match word >> 62 {
        1 => with_fields(word & 0x7fff_ffff, 0, (word >> 31) & 0x1_ffff),
        2 => with_fields((word >> 31) & 0x1_ffff, 0, word & 0x7fff_ffff),
        _ => with_fields(0, word & 0x7fff_ffff, (word >> 31) & 0x1_ffff),
    }
}

/// The shape of the object with this header. `Header` says the same, with a look at its form for each number.
#[inline(always)]
pub fn shape_of(edition: Edition, word: u64) -> Shape
    ensures refs { result.refs ≡ refs_of (header_of edition word) }
    ensures weak { result.weak ≡ weak_of (header_of edition word) }
    ensures size { result.size ≡ size_of (header_of edition word) }
{
    match edition {
        Edition::One => with_fields(word & 0xffff, 0, (word >> 16) & 0xffff),
        Edition::Two => with_fields(word & 0xffff, (word >> 32) & 0xffff, (word >> 16) & 0xffff),
        Edition::Three | Edition::Four => {
            if word >> 62 == 0 {
                with_fields(word & 0xffff, (word >> 32) & 0xffff, (word >> 16) & 0xffff)
            } else {
                long_shape(word)
            }
        }
    }
}
