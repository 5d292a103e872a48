//! Reads words and roots, which stand for a dump.
ghost use Rattle.std.specs.Prelude.{◌≡◌, ◌+◌, ◌-◌, ◌*◌, ◌/◌, ◌^◌, ◌<◌, ◌≤◌, IfOk, IfErr, IfSome, Some, length, map};
ghost use Rattle.std.specs.Io.KnownBytes.{Consumes};
ghost use Rattle.std.specs.List.{range_with_len};
ghost use Rattle.heap_layout.specs.Counted.{inner_of, failures_of};
ghost use Rattle.heap_layout.specs.Limits.{most_words};
ghost use Rattle.heap_layout.specs.Versions.{IsRead};
ghost use Rattle.comp_dump.specs.Dumped.{IsStored};
ghost use Rattle.comp_dump.specs.DumpEncoding.{four_bytes};
ghost use Rattle.comp_dump.specs.DumpReading.{number, CountsFailure, Fails, Stops};
ghost use Rattle.comp_dump.specs.WordsEncoding.{dump_of_words, page_of_words, pages_filled, words_bytes, AreStoredWords, IsDumpOfWords, WordsFile};
ghost use Rattle.comp_dump.specs.WordsReading.{read_whole_words, words_file};

use crate::dump::Dump;
use crate::fault::DumpFault;
use crate::kept_pages::DumpedPages;
use crate::page::OwnedPage;
use crate::reading::fields::{expect, expect_end, read_edition, read_four};
use crate::reading::{read_list, read_root_count};
use crate::sparse_pages::SparsePages;
use heap_layout::{Counted, Edition, OutOfMemory, PAGE_WORDS, PageWords};
use std::alloc::{AllocError, Global};
use std::io::Read;
use std::marker::Model;

// The first bytes of a file of words and roots.
const WORDS_MAGIC: [u8; 8] = *b"COMPWORD";

/// Reads a file of words and roots, to the end of the reader, of edition three or four only if `large`. The answer is
/// the dump for which it stands.
///
/// Each field is checked as soon as it is read, and a call of the reader that returns an error ends the reading, as in
/// `read_dump`. Room grows as roots and words come. After an Err the bytes that were read are lost. Fewer than
/// `u64::MAX` calls of the reader must have failed before.
pub fn read_words<R: Read>(
    alloc: Global,
    r: &mut Counted<R>,
    large: bool,
) -> Result<Dump<'static>, DumpFault>
    requires { failures_of r.old < 2 ^ 64 - 1 }
    ensures read { IfOk result (λ dump. IfSome (R.remaining (inner_of r.old)) (λ bytes. IsDumpOfWords bytes dump)) }
    ensures again { IfOk result (λ dump. IfSome (R.remaining (inner_of r.old)) (λ bytes. read_whole_words large bytes ≡ Ok dump)) }
    ensures edition { IfOk result (λ dump. IsRead large dump.edition) }
    ensures stored { IfOk result IsStored }
    ensures cause { IfErr result (λ fault. IfSome (R.remaining (inner_of r.old)) (λ bytes. Fails fault (read_whole_words large bytes))) }
    ensures counts { CountsFailure (failures_of r.old) (failures_of r.new) result }
{
    let file = read_file(alloc, r, large)?;
    expect_end(r)?;
    Ok(file.into_dump(alloc)?)
}

// A file of words and roots.
#[derive(Drop)]
struct LeftWords {
    edition: Edition,
    roots: Vec<u64>,
    words: Vec<u64>,
}

impl Model for LeftWords {
    ghost use Rattle.comp_dump.specs.WordsEncoding.{AreStoredWords, WordsFile};

    ghost Value = { WordsFile };

    ghost view = { λ file. record { edition = file.edition; roots = file.roots.items; words = file.words.items } };

    ghost invariant = { λ file. AreStoredWords (record { edition = file.edition; roots = file.roots.items; words = file.words.items }) };
}

impl LeftWords {
    // The dump for which the file stands. It fails only if memory runs out.
    fn into_dump(self, alloc: Global) -> Result<Dump<'static>, OutOfMemory>
        ensures dump { IfOk result (λ dump. dump ≡ dump_of_words self) }
        ensures stored { IfOk result IsStored }
    {
        let LeftWords {
            edition,
            roots,
            words,
        } = self;
        let pages = cut_pages(alloc, &words)?;
        let builds = numbers_below(alloc, pages.len() as u32)?;
        let mut lists = Vec::with_capacity(alloc, 1)?;
        lists.push_reserved(builds);
        Ok(Dump::from_parts(
            edition,
            1,
            0,
            roots,
            DumpedPages::owned(pages),
            lists,
            words.len() as u64,
        ))
    }
}

// Reads the number of words: at most as many as a heap of the edition may have.
#[tactic(auto, using(heap_layout::proofs::Bounds::words_most))]
fn read_word_count<R: Read>(r: &mut Counted<R>, edition: Edition) -> Result<u32, DumpFault>
    requires { failures_of r.old < 2 ^ 64 - 1 }
    ensures read { IfOk result (λ n. Consumes (R.remaining (inner_of r.old)) (R.remaining (inner_of r.new)) (four_bytes n)) }
    ensures within { IfOk result (λ n. (0 ≤ n) × (n ≤ most_words edition)) }
    ensures cause { IfErr result (Stops (number 4 0 (most_words edition)) (R.remaining (inner_of r.old))) }
    ensures counts { CountsFailure (failures_of r.old) (failures_of r.new) result }
{
    read_four(r, 0, edition.max_words() as u32)
}

// Reads a file. More bytes may follow it.
fn read_file<R: Read>(
    alloc: Global,
    r: &mut Counted<R>,
    large: bool,
) -> Result<LeftWords, DumpFault>
    requires { failures_of r.old < 2 ^ 64 - 1 }
    ensures read { IfOk result (λ file. Consumes (R.remaining (inner_of r.old)) (R.remaining (inner_of r.new)) (words_bytes file)) }
    ensures edition { IfOk result (λ file. IsRead large file.edition) }
    ensures stored { IfOk result AreStoredWords }
    ensures cause { IfErr result (Stops (words_file large) (R.remaining (inner_of r.old))) }
    ensures counts { CountsFailure (failures_of r.old) (failures_of r.new) result }
{
    expect(r, &WORDS_MAGIC)?;
    let edition = read_edition(r, large)?;
    let count = read_word_count(r, edition)?;
    let of_roots = read_root_count(r, edition)?;
    let roots = read_list(alloc, r, of_roots)?;
    let words = read_list(alloc, r, count)?;
    Ok(LeftWords {
        edition,
        roots,
        words,
    })
}

// The words, cut into pages, with zeros after the last word.
fn cut_pages(alloc: Global, words: &[u64]) -> Result<SparsePages, OutOfMemory>
    requires { pages_filled words.now < 2 ^ 32 }
    ensures { IfOk result (λ pages. pages ≡ map (λ p. Some (page_of_words words.now p)) (range_with_len 0 (pages_filled words.now))) }
{
    let count = words.len().div_ceil(PAGE_WORDS);
    let mut pages = SparsePages::new(alloc);
    for p in 0..count {
        pages.push(Some(cut_page(alloc, words, p)?))?;
    }
    Ok(pages)
}

// Page `p` of the words, with zeros after the last word.
fn cut_page(alloc: Global, words: &[u64], p: usize) -> Result<OwnedPage, OutOfMemory>
    requires { 64 * p < length words.now }
    ensures { IfOk result (λ page. page ≡ page_of_words words.now p) }
{
    let rest = &words[PAGE_WORDS * p..];
    let kept = rest.len().min(PAGE_WORDS);
    let mut page = [0; PAGE_WORDS];
    page[..kept].copy_from_slice(&rest[..kept]);
    Ok(OwnedPage::new(PageWords::copied(alloc, &page)?, Vec::new(alloc)))
}

// The numbers below `count`.
fn numbers_below(alloc: Global, count: u32) -> Result<Vec<u32>, AllocError>
    ensures { IfOk result (λ list. list.items ≡ range_with_len 0 count) }
{
    let mut list = Vec::with_capacity(alloc, count as usize)?;
    for p in 0..count {
        list.push_reserved(p);
    }
    Ok(list)
}
