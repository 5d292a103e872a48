ghost use Rattle.std.specs.Prelude.{◌≡◌, ℕ, ◌+◌, ◌/◌, ◌%◌, ◌^◌, ◌<◌, ◌≤◌, IfNone, IfSome};
ghost use Rattle.heap_layout.specs.declared.edition.Edition.TheVariants.{One, Two, Three};
ghost use Rattle.heap_layout.specs.declared.header.Form.TheVariants.{Mixed, ManyReferences};
ghost use Rattle.heap_layout.specs.Header.{refs_of, weak_of, data_of, tag_of, size_of, header_of, header_with, header_word, weak_header_word, form_of, many_in, few_in, Says};
ghost use Rattle.heap_layout.specs.Kinds.{count_of, first_of};

use crate::edition::Edition;
use crate::kind::Kind;
use std::marker::Model;

// One more than the most fields of a kind in a mixed header, than the most fields of which there may be many, and than
// the most fields beside those.
const FEW: u32 = 65_536;

const MANY: u32 = 2_147_483_648;

const BESIDE: u32 = 131_072;

/// A word that is read as a header by an edition: how many words of each kind follow it, and a tag. Every word is a
/// header in all editions. Headers of the same word and different editions are different.
#[derive(Clone, Copy, Debug, PartialEq, Eq)]
pub struct Header {
    edition: Edition,
    word: u64,
}

/// The form of a header of edition three or four: of which fields there may be many.
#[derive(Clone, Copy, Debug, PartialEq, Eq)]
pub enum Form {
    /// Fewer than 2^16 fields of each kind.
    Mixed,
    /// Fewer than 2^31 references, fewer than 2^17 data words, and no weak words.
    ManyReferences,
    /// Fewer than 2^31 data words, fewer than 2^17 references, and no weak words.
    ManyData,
    /// Fewer than 2^31 weak words, fewer than 2^17 data words, and no references.
    ManyWeak,
}

// The form of a header word of edition three or four.
fn form_of(word: u64) -> Form
    ensures { result ≡ form_of word }
{
    match word >> 62 {
        0 => Form::Mixed,
        1 => Form::ManyReferences,
        2 => Form::ManyData,
        _ => Form::ManyWeak,
    }
}

// Of a header word of edition three or four that is not mixed, the number of the fields of which there may be many.
fn many_in(word: u64) -> u32
    ensures value { result ≡ many_in word }
    ensures small { result < 2 ^ 31 }
{
    (word & 0x7fff_ffff) as u32
}

// Of a header word of edition three or four that is not mixed, the number of the other fields.
fn few_in(word: u64) -> u32
    ensures value { result ≡ few_in word }
    ensures small { result < 2 ^ 17 }
{
    ((word >> 31) & 0x1_ffff) as u32
}

// A header of edition three that is not mixed, with this code of its form, `many` of the fields of which there may be
// many, and `few` others.
fn long_header(code: u64, many: u32, few: u32, tag: u32) -> Header
    requires code { code ≤ 3 }
    requires many { many < 2 ^ 31 }
    requires few { few < 2 ^ 17 }
    requires tag { tag < 2 ^ 14 }
    ensures edition { result.edition ≡ Three }
    ensures code { result.word / 2 ^ 62 ≡ code }
    ensures many { many_in result.word ≡ many }
    ensures few { few_in result.word ≡ few }
    ensures tag { result.word / 2 ^ 48 % 2 ^ 14 ≡ tag }
{
    Header {
        edition: Edition::Three,
        word: u64::from(many) + (u64::from(few) << 31) + (u64::from(tag) << 48) + (code << 62),
    }
}

impl Model for Header {
    ghost use Rattle.heap_layout.specs.Header.{Head};

    ghost Value = { Head };

    ghost view = { λ header. record { edition = header.edition; word = header.word } };

    ghost inverse = { λ head. record { edition = head.edition; word = head.word } };
}

impl Header {
    /// The header, in edition one, of an object with `refs` references and `data_words` data words, and with this tag.
    pub fn new(refs: u16, data_words: u16, tag: u32) -> Header
        ensures { result ≡ header_of One (header_word refs data_words tag) }
    {
        Header {
            edition: Edition::One,
            word: u64::from(refs) + (u64::from(data_words) << 16) + (u64::from(tag) << 32),
        }
    }

    /// The header, in edition two, of an object with `refs` references, `weak` weak words and `data_words` data words,
    /// and with this tag.
    pub fn new_weak(refs: u16, weak: u16, data_words: u16, tag: u16) -> Header
        ensures { result ≡ header_of Two (weak_header_word refs weak data_words tag) }
    {
        Header {
            edition: Edition::Two,
            word: u64::from(refs)
                + (u64::from(data_words) << 16)
                + (u64::from(weak) << 32)
                + (u64::from(tag) << 48),
        }
    }

    /// The header, in the mixed form of edition three, of an object with `refs` references, `weak` weak words and
    /// `data_words` data words, and with this tag. The tag must be below 2^14.
    pub fn new_mixed(refs: u16, weak: u16, data_words: u16, tag: u16) -> Header
        requires { tag < 2 ^ 14 }
        ensures { result ≡ header_of Three (weak_header_word refs weak data_words tag) }
    {
        Header::from_word_of(
            Edition::Three,
            Header::new_weak(refs, weak, data_words, tag).word,
        )
    }

    /// The header of an object with `refs` references, `weak` weak words and `data_words` data words, and with this
    /// tag. None if the edition has no header for these: edition one has no weak words, edition two no tag of 2^16 or
    /// more, editions three and four no tag of 2^14 or more.
    pub fn of_counts(
        edition: Edition,
        refs: u16,
        weak: u16,
        data_words: u16,
        tag: u32,
    ) -> Option<Header>
        ensures header { result ≡ header_with edition refs weak data_words tag }
        ensures edition { IfSome result (λ header. header.edition ≡ edition) }
    {
        match edition {
            Edition::One if weak == 0 => Some(Header::new(refs, data_words, tag)),
            Edition::Two if tag < 65_536 => {
                Some(Header::new_weak(refs, weak, data_words, tag as u16))
            }
            Edition::Three if tag < 16_384 => {
                Some(Header::new_mixed(refs, weak, data_words, tag as u16))
            }
            Edition::Four if tag < 16_384 => Some(Header::from_word_of(
                Edition::Four,
                Header::new_mixed(refs, weak, data_words, tag as u16).word,
            )),
            _ => None,
        }
    }

    /// The header, in edition three, of an object with `refs` references, `weak` weak words and `data_words` data
    /// words, and with this tag. None if no header of edition three says these. One kind alone may have 2^16 fields or
    /// more, up to 2^31 - 1; then there are fewer than 2^17 data words beside references or weak words, or references
    /// beside data words, and none of the third kind. Of the forms that say them it is the mixed one if all three
    /// counts are below 2^16, and that of many references before that of many data words.
    pub fn of_large_counts(refs: u32, weak: u32, data_words: u32, tag: u32) -> Option<Header>
        ensures says { IfSome result (λ header. Says header refs weak data_words tag) }
        ensures mixed { IfSome result (λ header. refs < 2 ^ 16 → weak < 2 ^ 16 → data_words < 2 ^ 16 → form_of header.word ≡ Mixed) }
        ensures many_references { IfSome result (λ header. (refs < 2 ^ 16 → weak < 2 ^ 16 → data_words < 2 ^ 16 → ⊥) → weak ≡ 0 → data_words < 2 ^ 17
            → form_of header.word ≡ ManyReferences) }
        ensures none { IfNone result ((word : ℕ) → Says (header_of Three word) refs weak data_words tag → ⊥) }
    {
        if tag >= 16_384 {
            return None;
        }
        if refs < FEW && weak < FEW && data_words < FEW {
            return Some(Header::new_mixed(refs as u16, weak as u16, data_words as u16, tag as u16));
        }
        if weak == 0 && refs < MANY && data_words < BESIDE {
            return Some(long_header(1, refs, data_words, tag));
        }
        if weak == 0 && data_words < MANY && refs < BESIDE {
            return Some(long_header(2, data_words, refs, tag));
        }
        if refs == 0 && weak < MANY && data_words < BESIDE {
            return Some(long_header(3, weak, data_words, tag));
        }
        None
    }

    /// Reads a word as a header of edition one.
    pub fn from_word(word: u64) -> Header
        ensures { result ≡ header_of One word }
    {
        Header::from_word_of(Edition::One, word)
    }

    /// Reads a word as a header of this edition.
    pub fn from_word_of(edition: Edition, word: u64) -> Header
        ensures { result ≡ header_of edition word }
    {
        Header { edition, word }
    }

    /// The word of the header.
    pub fn word(self) -> u64
        ensures { result ≡ self.word }
    {
        self.word
    }

    /// How many references follow the header.
    pub fn refs(self) -> u32
        ensures { result ≡ refs_of self }
    {
        match self.edition {
            Edition::One | Edition::Two => (self.word & 0xffff) as u32,
            Edition::Three | Edition::Four => match form_of(self.word) {
                Form::Mixed => (self.word & 0xffff) as u32,
                Form::ManyReferences => many_in(self.word),
                Form::ManyData => few_in(self.word),
                Form::ManyWeak => 0,
            },
        }
    }

    /// How many weak words follow the references: none in edition one.
    pub fn weak(self) -> u32
        ensures { result ≡ weak_of self }
    {
        match self.edition {
            Edition::One => 0,
            Edition::Two => ((self.word >> 32) & 0xffff) as u32,
            Edition::Three | Edition::Four => match form_of(self.word) {
                Form::Mixed => ((self.word >> 32) & 0xffff) as u32,
                Form::ManyReferences | Form::ManyData => 0,
                Form::ManyWeak => many_in(self.word),
            },
        }
    }

    /// How many data words follow the weak words.
    pub fn data_words(self) -> u32
        ensures { result ≡ data_of self }
    {
        match self.edition {
            Edition::One | Edition::Two => ((self.word >> 16) & 0xffff) as u32,
            Edition::Three | Edition::Four => match form_of(self.word) {
                Form::Mixed => ((self.word >> 16) & 0xffff) as u32,
                Form::ManyReferences | Form::ManyWeak => few_in(self.word),
                Form::ManyData => many_in(self.word),
            },
        }
    }

    /// The tag: 32 bits in edition one, 16 bits in edition two, 14 bits in editions three and four.
    pub fn tag(self) -> u32
        ensures { result ≡ tag_of self }
    {
        match self.edition {
            Edition::One => (self.word >> 32) as u32,
            Edition::Two => (self.word >> 48) as u32,
            Edition::Three | Edition::Four => ((self.word >> 48) & 0x3fff) as u32,
        }
    }

    /// How many fields of this kind the object has. The header is no field: 0 for kind Header.
    pub fn count(self, kind: Kind) -> u32
        ensures count { result ≡ count_of kind self }
        ensures inside { first_of kind self + result ≤ size_of self }
    {
        match kind {
            Kind::Header => 0,
            Kind::Reference => self.refs(),
            Kind::Weak => self.weak(),
            Kind::Data => self.data_words(),
        }
    }

    /// The offset, in words, at which the fields of this kind begin in the object. The header has offset 0.
    pub fn first(self, kind: Kind) -> u32
        ensures { result ≡ first_of kind self }
    {
        match kind {
            Kind::Header => 0,
            Kind::Reference => 1,
            Kind::Weak => 1 + self.refs(),
            Kind::Data => 1 + self.refs() + self.weak(),
        }
    }

    /// How many words the object has, with its header: 1 to 131,071 in edition one, 1 to 196,606 in edition two, fewer
    /// than 2^31 + 2^17 in editions three and four.
    pub fn size(self) -> u32
        ensures { result ≡ size_of self }
    {
        1 + self.refs() + self.weak() + self.data_words()
    }
}
