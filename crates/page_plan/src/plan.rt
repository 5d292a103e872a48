ghost use Rattle.std.specs.Prelude.{◌≡◌, ℕ, ◌+◌, ◌-◌, ◌<◌, ◌≤◌, None, Some, is_some, map, slice_index_or, IfErr, IfOk, IfSome, ◌*◌};
ghost use Rattle.heap_layout.specs.Heap.{live, IsClosed};
ghost use Rattle.heap_layout.specs.Limits.{most_words, most_pages};
ghost use Rattle.mark_tables.specs.LiveWords.{live_indices};
ghost use Rattle.page_plan.specs.Planned.{AreFirst, AreStarts};
ghost use Rattle.page_plan.specs.Sliding.{first_object, forward, forward_value, kind, live_words, page, pages, shape_at, to_address, HasObject, slid_words, IsPartFrom};

use crate::{first_objects, forwarding, page_builder, starts};
use heap_layout::{FROM_SPACE, Header, Kind, MarkedHeap, OutOfMemory, PageWords, TO_SPACE, is_set};
use mark_tables::Tables;
use std::alloc::Global;
use std::marker::Model;
use std::thread::Threads;

/// The plan of a sliding compaction: the forwarding address of each live object, and each page of the result on its
/// own. To-space word `i` has the address `2^33 + i`. The algorithm is that of the Compressor (Kermany and Petrank,
/// 2006).
#[derive(Debug, Drop)]
pub struct Plan {
    heap: MarkedHeap,
    tables: Tables,
    first_objects: Vec<u32>,
    starts: Vec<u64>,
}

impl Model for Plan {
    ghost use Rattle.heap_layout.specs.Heap.{Heap};
    ghost use Rattle.page_plan.specs.Planned.{IsPlan};

    ghost Value = { Heap };

    ghost view = { λ plan. plan.heap };

    ghost invariant = { λ plan. IsPlan plan.heap plan.tables plan.first_objects.items plan.starts.items };
}

impl Plan {
    /// Makes the plan of this heap. Err if out of memory.
    pub fn new(
        alloc: Global,
        rt: &(impl Threads + Sync),
        heap: MarkedHeap,
    ) -> Result<Plan, OutOfMemory>
        ensures { IfOk result (λ plan. plan ≡ heap) }
    {
        let (tables, starts) = Tables::build_with_starts(alloc, rt, &heap)?;
        let first_objects = first_objects::first_objects(alloc, &starts)?;
        Ok(Plan {
            heap,
            tables,
            first_objects,
            starts,
        })
    }

    /// Makes the plan of this heap, as `new` does, but starts no thread. If memory runs out, the heap is handed back.
    pub fn new_alone(alloc: Global, heap: MarkedHeap) -> Result<Plan, MarkedHeap>
        ensures plan { IfOk result (λ plan. plan ≡ heap) }
        ensures back { IfErr result (λ left. left ≡ heap) }
    {
        let Ok((tables, starts)) = Tables::build_alone_with_starts(alloc, &heap) else {
            return Err(heap);
        };
        let Ok(first_objects) = first_objects::first_objects(alloc, &starts) else {
            return Err(heap);
        };
        Ok(Plan {
            heap,
            tables,
            first_objects,
            starts,
        })
    }

    /// Consumes the plan. Answers the heap.
    pub fn into_heap(self) -> MarkedHeap
        ensures { result ≡ self }
    {
        let Plan {
            heap,
            tables: _,
            first_objects: _,
            starts: _,
        } = self;
        heap
    }

    /// The heap that is compacted.
    pub fn heap(&self) -> &MarkedHeap
        ensures { result.now ≡ self.now }
    {
        &self.heap
    }

    /// The mark bitmap and offset vector of the heap.
    pub(crate) fn tables(&self) -> &Tables
        ensures indices { result.now ≡ live_indices (live self.now) }
        ensures closed { IsClosed self.now }
    {
        &self.tables
    }

    /// The first-object table: for each page, the number of the live object that has its first word.
    pub(crate) fn first_objects(&self) -> &[u32]
        ensures first { AreFirst (live self.now) result.now }
        ensures closed { IsClosed self.now }
    {
        &self.first_objects
    }

    /// The object-start bits: one bit for each slid word, a block of 64 for each page. A bit is set if an object starts
    /// at its word.
    pub(crate) fn starts(&self) -> &[u64]
        ensures starts { AreStarts (live self.now) result.now }
        ensures closed { IsClosed self.now }
    {
        &self.starts
    }

    /// How many words the live objects have.
    pub fn live_words(&self) -> u64
        ensures words { result ≡ live_words (live self.now) }
        ensures few { result ≤ most_words self.now.edition }
    {
        self.tables().live_words()
    }

    /// How many pages of 64 words the slid words fill. The last page may be filled in part.
    pub fn pages(&self) -> u64
        ensures pages { result ≡ pages (live self.now) }
        ensures few { result ≤ most_pages self.now.edition }
    {
        self.live_words().div_ceil(64)
    }

    /// The from-space index of the first live object with a word on page `p`. None if there is no page `p`.
    pub fn first_object(&self, p: u64) -> Option<u64>
        ensures { result ≡ first_object (live self.now) p }
    {
        if p >= self.pages() {
            return None;
        }
        let number = first_objects::first_number(self, p);
        Some(u64::from(self.heap.marks()[number]))
    }

    /// Whether a slid object starts at this address. Takes constant time.
    pub fn is_start(&self, address: u64) -> bool
        ensures { result ≡ is_some (shape_at (live self.now) address) }
    {
        if address < TO_SPACE {
            return false;
        }
        let new_index = address - TO_SPACE;
        if new_index / 64 >= self.starts().len() as u64 {
            return false;
        }
        is_set(self.starts(), new_index as usize)
    }

    /// The header of the slid object that starts at this address. None if no object starts there. Takes constant time.
    pub fn shape_at(&self, address: u64) -> Option<Header>
        ensures shape { result ≡ shape_at (live self.now) address }
        ensures above { IfSome result (λ _. to_address 0 ≤ address) }
        ensures object { IfSome result (λ header. HasObject (live self.now) (address - to_address 0) header) }
    {
        if !self.is_start(address) {
            return None;
        }
        let number = starts::number_at(self, address - TO_SPACE);
        let start = self.heap().marks()[number];
        Some(self.heap().header_at(start as usize))
    }

    /// Forwards a reference: 0 to 0, the address of a live object to its forwarding address. None for every other word.
    /// Takes constant time.
    pub fn forward(&self, reference: u64) -> Option<u64>
        ensures { result ≡ forward (live self.now) reference }
    {
        if reference == 0 {
            return Some(0);
        }
        if reference < FROM_SPACE {
            return None;
        }
        // A live word is the first word of its object if the start bit at its to-space index is set.
        let new_index = self.tables().new_place(reference - FROM_SPACE)?;
        if is_set(self.starts(), new_index as usize) {
            Some(TO_SPACE + new_index)
        } else {
            None
        }
    }

    /// Forwards a root, a reference or a weak word of the heap: an immediate of edition four to itself, any other word
    /// as `forward` does.
    pub fn forward_value(&self, word: u64) -> Option<u64>
        ensures { result ≡ forward_value self.now.edition (live self.now) word }
    {
        if self.heap().edition().is_immediate(word) {
            return Some(word);
        }
        self.forward(word)
    }

    /// The forwarded roots, in their order. Err if they can not be allocated.
    pub fn forward_roots(&self, alloc: Global) -> Result<Vec<u64>, OutOfMemory>
        ensures { IfOk result (λ roots. map (λ address. Some address) roots.items ≡ map (forward_value self.now.edition (live self.now)) self.now.roots) }
    {
        Ok(forwarding::forward_all(alloc, self, self.heap.roots())?)
    }

    /// Builds page `p`: its 64 words, with zeros after the last slid word. `p` must be below `pages()`. Err if out of
    /// memory.
    pub fn build_page(&self, alloc: Global, p: u64) -> Result<PageWords, OutOfMemory>
        requires { p < pages (live self.now) }
        ensures page { IfOk result (λ words. words ≡ page (live self.now) p) }
        ensures words { IfOk result (λ words. IsPartFrom (slid_words (live self.now)) (64 * p) words) }
    {
        let mut page = PageWords::zeros(alloc)?;
        let mut cursor = page_builder::cursor_at(self, p);
        let begin = cursor.new_index;
        let end = self.live_words().min(begin + 64);
        while cursor.new_index < end {
            cursor = page_builder::write_object(self, &mut page, begin, cursor, end);
        }
        Ok(page)
    }

    /// What each of the 64 words of page `p` is. None after the last slid word. `p` must be below `pages()`. Does not
    /// allocate.
    pub fn page_kinds(&self, p: u64) -> [Option<Kind>; 64]
        requires { p < pages (live self.now) }
        ensures { (offset : ℕ) → offset < 64 → slice_index_or result offset None ≡ kind (live self.now) (64 * p + offset) }
    {
        let mut kinds = [None; 64];
        let mut cursor = page_builder::cursor_at(self, p);
        let first = cursor.new_index;
        let end = self.live_words().min(first + 64);
        while cursor.new_index < end {
            cursor = page_builder::tell_object(self, &mut kinds, first, cursor, end);
        }
        kinds
    }
}
