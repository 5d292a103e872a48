//! The bytes of files, given as parts.
use heap_layout::Header;
use std::alloc::{AllocError, Global};

/// A part of a file. All numbers are little-endian.
pub enum Part {
    /// These bytes.
    Bytes(&'static [u8]),
    /// Numbers of 4 bytes each.
    Numbers(&'static [u32]),
    /// Words of 8 bytes each.
    Words(&'static [u64]),
    /// The header, in edition one, of an object with this many references and data words and this tag, and words after
    /// it.
    Fields(u16, u16, u32, &'static [u64]),
    /// The header, in edition two, of an object with this many references, weak words and data words and this tag, and
    /// words after it.
    WeakFields(u16, u16, u16, u16, &'static [u64]),
    /// An object of 640 words without references, whose data words are 0.
    Object,
    /// The ten pages of a dump that this object fills, without an entry.
    Pages,
}

/// The bytes of these parts, one after another.
pub fn bytes_of(alloc: Global, parts: &[Part]) -> Result<Vec<u8>, AllocError> {
    let mut bytes = Vec::new(alloc);
    push_parts(&mut bytes, parts)?;
    Ok(bytes)
}

// Appends the bytes of these parts.
fn push_parts(bytes: &mut Vec<u8>, parts: &[Part]) -> Result<(), AllocError> {
    for part in parts {
        push_part(bytes, part)?;
    }
    Ok(())
}

// Appends the bytes of a part.
fn push_part(bytes: &mut Vec<u8>, part: &Part) -> Result<(), AllocError> {
    match part {
        Part::Bytes(given) => bytes.extend_from_slice(given),
        Part::Numbers(numbers) => push_numbers(bytes, numbers),
        Part::Words(words) => push_words(bytes, words),
        Part::Fields(refs, data, tag, words) => {
            push_object(bytes, Header::new(*refs, *data, *tag), words)
        }
        Part::WeakFields(refs, weak, data, tag, words) => {
            push_object(bytes, Header::new_weak(*refs, *weak, *data, *tag), words)
        }
        Part::Object => push_object_words(bytes, 0, 640),
        Part::Pages => push_pages(bytes),
    }
}

// Appends numbers of 4 bytes.
fn push_numbers(bytes: &mut Vec<u8>, numbers: &[u32]) -> Result<(), AllocError> {
    for number in numbers {
        bytes.extend_from_slice(&number.to_le_bytes())?;
    }
    Ok(())
}

// Appends words of 8 bytes.
fn push_words(bytes: &mut Vec<u8>, words: &[u64]) -> Result<(), AllocError> {
    for word in words {
        bytes.extend_from_slice(&word.to_le_bytes())?;
    }
    Ok(())
}

// Appends a header and the words after it.
fn push_object(bytes: &mut Vec<u8>, header: Header, words: &[u64]) -> Result<(), AllocError> {
    bytes.extend_from_slice(&header.word().to_le_bytes())?;
    push_words(bytes, words)
}

// Appends the words `from` to `to` of the object of 640 words: its header, and data words that are 0.
fn push_object_words(bytes: &mut Vec<u8>, from: u64, to: u64) -> Result<(), AllocError> {
    for at in from..to {
        let word: u64 = if at == 0 {
            Header::new(0, 639, 0).word()
        } else {
            0
        };
        bytes.extend_from_slice(&word.to_le_bytes())?;
    }
    Ok(())
}

// Appends the ten pages of a dump that this object fills: 64 words each, and no entry.
fn push_pages(bytes: &mut Vec<u8>) -> Result<(), AllocError> {
    for page in 0..10u64 {
        bytes.push(1)?;
        push_object_words(bytes, page * 64, page * 64 + 64)?;
        bytes.extend_from_slice(&[0; 4])?;
    }
    Ok(())
}
