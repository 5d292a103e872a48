//! What a page is, and what all pages are together.
ghost use Rattle.std.specs.Prelude.{◌≡◌, ◌*◌, ◌≤◌, ℕ, drop, length, take};
ghost use Rattle.heap_layout.specs.Heap.{Heap};
ghost use Rattle.rest_marks.specs.Places.{IsFoundOf};
ghost use Rattle.rest_slide.specs.Settled.{collected};
ghost use Rattle.first_touch.specs.Asked.{Asked, joined_pages, page_len, slid_page};

/// The words of each page when it is handed out are those of the collected heap at its place, if the words are those
/// that were surveyed.
pub fn page_is_collected()
    ensures { (asked : Asked) (heap : Heap) (k : ℕ) → IsFoundOf asked.found heap → heap.words ≡ asked.words
        → slid_page asked k ≡ take (page_len asked k) (drop (k * asked.size) (collected heap).words) }
{}

/// The words that all pages have when they are handed out, joined, are those of the collected heap, if the words are
/// those that were surveyed. So once all pages are home, each word of the memory is that of the collected heap, but for
/// what the runtime wrote to the page after it was handed out.
pub fn pages_are_whole()
    ensures { (asked : Asked) (heap : Heap) (pages : ℕ) → IsFoundOf asked.found heap → heap.words ≡ asked.words
        → length asked.found.indices ≤ pages * asked.size → joined_pages asked 0 pages ≡ (collected heap).words }
{}
