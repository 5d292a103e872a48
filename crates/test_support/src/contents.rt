//! What the files of tests hold, by name. A table that names a content costs a test's proof less than one that holds
//! it.
use crate::changes::{Change, VERSION, WEAK_WORD, make_change};
use crate::images::{
    BAD_ROOT_IMAGE, COLLECTED_IMAGE, COLLECTED_IMMEDIATES_IMAGE, COLLECTED_WEAK_IMAGE, EMPTY_IMAGE,
    FILLED_IMAGE, FRESH_DUMP, IMMEDIATES_DUMP, IMMEDIATES_IMAGE, LARGE_WORDS, LONGER_WORDS,
    MARKED_IMAGE, MOVED, THREE_IMAGE, THREE_WORDS, TWENTY_IMAGE, UNBUILT_DUMP, WEAK_DUMP,
    WEAK_IMAGE, WEAK_MOVED, WEAK_SWEPT_DUMP,
};
use crate::parts::{Part, bytes_of};
use std::alloc::{AllocError, Global};

/// What a file holds.
#[derive(Clone, Copy)]
pub enum Content {
    /// This text.
    Text(&'static str),
    /// A trace: mutator 0 writes 7 into a data field, and line 6 of mutator 1 shows it.
    SeenTrace,
    /// A trace that makes a new object and stores it in the field of the root's object.
    FreshTrace,
    /// A trace that makes an object with a weak word, writes its address into a weak word of the first object, reads
    /// that weak word, and shows the data word of the first object.
    WeakTrace,
    /// The image of the empty heap.
    EmptyImage,
    /// The image of the three objects.
    ThreeImage,
    /// The image of the three objects with a root that refers to no object.
    BadRootImage,
    /// The image of the three objects with all three marked, and two changes.
    ForgedImage(Change, Change),
    /// The image of two objects of 640 words, which fill twenty pages.
    TwentyImage,
    /// The image of the three objects of edition two. The first object has two weak words.
    WeakImage,
    /// The image of the three objects of edition two with this number as its first weak word.
    BadWeakImage(u64),
    /// The dump after the run that makes a new object.
    FreshDump,
    /// That dump with two changes.
    ForgedDump(Change, Change),
    /// The dump after the run that writes a weak word.
    WeakDump,
    /// That dump with two changes.
    ForgedWeakDump(Change, Change),
    /// The dump of the three objects of edition two after a sweep by one worker.
    WeakSweptDump,
    /// The image of the same three objects in edition three, whose words are the same.
    LargeImage,
    /// The dump after the same run in edition three.
    LargeDump,
    /// The image of the same three objects in edition four, with immediates as a weak word and as a root.
    ImmediatesImage,
    /// The image with immediates, with this number as its first weak word.
    BadImmediatesImage(u64),
    /// A trace that writes an immediate of its own into a reference, and the root that is an immediate into a weak
    /// word, and shows the data word of the first object.
    ImmediatesTrace,
    /// The dump after that run.
    ImmediatesDump,
    /// What a collection leaves of the three objects.
    CollectedImage,
    /// What it leaves of those of edition two.
    CollectedWeakImage,
    /// What it leaves of those of edition four.
    CollectedImmediatesImage,
    /// The next heap of the three objects after an empty run without fresh pages.
    FilledImage,
    /// What a collection left that moved the three objects backwards, with two changes.
    ForgedMoved(Change, Change),
    /// What a collection left that moved the three objects of edition two backwards, with two changes.
    ForgedWeakMoved(Change, Change),
    /// A dump of the three objects of which no page was built, with a change.
    UnbuiltDump(Change),
    /// The words of the three objects after sliding, with a change.
    ThreeWords(Change),
    /// The words of the three objects after sliding, with a word 0 after them.
    LongerWords,
    /// The words of the three objects of edition two after sliding, in edition three.
    LargeWords,
}

const SEEN_TRACE: &[u8] =
    b"0 root 0 0\n0 load 1 0 0\n0 put 1 0 7\n1 root 0 0\n1 load 1 0 0\n1 get 1 0\n";

const FRESH_TRACE: &[u8] = b"0 root 0 0\n0 new 1 0 0 0\n0 store 0 0 1\n";

const WEAK_TRACE: &[u8] =
    b"0 root 0 0\n0 load 1 0 0\n0 wnew 2 0 1 0 5\n0 wstore 1 0 2\n0 wload 3 1 0\n0 get 1 0\n";

const IMMEDIATES_TRACE: &[u8] =
    b"0 root 0 0\n0 load 1 0 0\n0 imm 2 7\n0 store 0 0 2\n0 load 3 0 0\n0 root 4 1\n0 wstore 1 0 4\n0 get 1 0\n";

/// The bytes of a file.
pub fn bytes_in(alloc: Global, content: Content) -> Result<Vec<u8>, AllocError> {
    match content {
        Content::Text(text) => text.as_bytes().to_vec(alloc),
        Content::SeenTrace => SEEN_TRACE.to_vec(alloc),
        Content::FreshTrace => FRESH_TRACE.to_vec(alloc),
        Content::WeakTrace => WEAK_TRACE.to_vec(alloc),
        Content::EmptyImage => bytes_of(alloc, &EMPTY_IMAGE),
        Content::ThreeImage => bytes_of(alloc, &THREE_IMAGE),
        Content::BadRootImage => bytes_of(alloc, &BAD_ROOT_IMAGE),
        Content::ForgedImage(first, second) => changed(alloc, &MARKED_IMAGE, first, second),
        Content::TwentyImage => bytes_of(alloc, &TWENTY_IMAGE),
        Content::WeakImage => bytes_of(alloc, &WEAK_IMAGE),
        Content::BadWeakImage(word) => {
            changed(
                alloc,
                &WEAK_IMAGE,
                Change::Word(WEAK_WORD, word),
                Change::None,
            )
        }
        Content::FreshDump => bytes_of(alloc, &FRESH_DUMP),
        Content::ForgedDump(first, second) => changed(alloc, &FRESH_DUMP, first, second),
        Content::WeakDump => bytes_of(alloc, &WEAK_DUMP),
        Content::ForgedWeakDump(first, second) => changed(alloc, &WEAK_DUMP, first, second),
        Content::WeakSweptDump => bytes_of(alloc, &WEAK_SWEPT_DUMP),
        Content::LargeImage => {
            changed(alloc, &WEAK_IMAGE, Change::Byte(VERSION, 3), Change::None)
        }
        Content::LargeDump => changed(alloc, &WEAK_DUMP, Change::Byte(VERSION, 3), Change::None),
        Content::ImmediatesImage => bytes_of(alloc, &IMMEDIATES_IMAGE),
        Content::BadImmediatesImage(word) => {
            changed(
                alloc,
                &IMMEDIATES_IMAGE,
                Change::Word(WEAK_WORD, word),
                Change::None,
            )
        }
        Content::ImmediatesTrace => IMMEDIATES_TRACE.to_vec(alloc),
        Content::ImmediatesDump => bytes_of(alloc, &IMMEDIATES_DUMP),
        Content::CollectedImage => bytes_of(alloc, &COLLECTED_IMAGE),
        Content::CollectedWeakImage => bytes_of(alloc, &COLLECTED_WEAK_IMAGE),
        Content::CollectedImmediatesImage => bytes_of(alloc, &COLLECTED_IMMEDIATES_IMAGE),
        Content::FilledImage => bytes_of(alloc, &FILLED_IMAGE),
        Content::ForgedMoved(first, second) => changed(alloc, &MOVED, first, second),
        Content::ForgedWeakMoved(first, second) => changed(alloc, &WEAK_MOVED, first, second),
        Content::UnbuiltDump(change) => changed(alloc, &UNBUILT_DUMP, change, Change::None),
        Content::ThreeWords(change) => changed(alloc, &THREE_WORDS, change, Change::None),
        Content::LongerWords => bytes_of(alloc, &LONGER_WORDS),
        Content::LargeWords => bytes_of(alloc, &LARGE_WORDS),
    }
}

// The bytes of these parts, with two changes.
fn changed(
    alloc: Global,
    parts: &[Part],
    first: Change,
    second: Change,
) -> Result<Vec<u8>, AllocError> {
    let mut bytes = bytes_of(alloc, parts)?;
    make_change(&mut bytes, first)?;
    make_change(&mut bytes, second)?;
    Ok(bytes)
}
