//! The headers of objects that wait in the queue of a marking are copied before the objects are followed. A loop that
//! does nothing else has many of them come from memory at a time. Markers of one thread and of several have them so.
ghost use Rattle.std.specs.Prelude.{◌≡◌, ℕ, ◌<◌, ◌≤◌, length, slice_index};
ghost use Rattle.heap_layout.specs.Header.{refs_of, weak_of, size_of};
ghost use Rattle.heap_layout.specs.Heap.{header_at};
ghost use Rattle.rest_marks.specs.Following.{IsAhead};

use crate::shape::{Shape, shape_of};
use heap_layout::Edition;

/// How many headers are copied at once.
pub const WIDE: usize = 32;

// If fewer objects wait, no header is copied.
const FEW: usize = 4;

// How many words lie at least between the first of these objects and the last, if headers are copied. If there are
// fewer, the processor has them soon enough.
const FAR: u32 = 1024;

/// Which headers are copied: those of the objects in a queue from place `from` up to `to`. Place `until` is where to
/// look at the queue again.
#[derive(Clone, Copy)]
pub struct Ahead {
    from: usize,
    to: usize,
    until: usize,
}

// Copies the headers of these objects, of those that lie within the words.
#[inline(always)]
fn copy_headers(words: &[u64], objects: &[u32], headers: &mut [u64; WIDE])
    requires room { length objects.now ≤ 32 }
    ensures copied { (k : ℕ) → k < length objects.now → slice_index objects.now k < length words.now
        → slice_index headers.new k ≡ slice_index words.now (slice_index objects.now k) }
{
    for k in 0..objects.len() {
        let i = objects[k] as usize;
        if i < words.len() {
            headers[k] = words[i];
        }
    }
}

// Whether the first and the last of these objects lie far from each other.
#[inline(always)]
fn lie_far(objects: &[u32]) -> bool
    requires { 0 < length objects.now }
{
    objects[0].abs_diff(objects[objects.len() - 1]) > FAR
}

impl Ahead {
    /// None is copied, and the queue has to be looked at from place `next` on.
    #[inline(always)]
    pub fn none(next: usize) -> Ahead
        ensures from { result.from ≡ next }
        ensures to { result.to ≡ next }
    {
        Ahead {
            from: next,
            to: next,
            until: next,
        }
    }

    // Looks at the objects that wait from place `next` on, up to 32 of them. If they lie far from each other, copies
    // their headers. It stands for itself, so that the loop that follows objects keeps its registers.
    #[inline(never)]
    fn look(&mut self, words: &[u64], queue: &[u32], headers: &mut [u64; WIDE], next: usize)
        requires within { next < length queue.now }
        ensures ahead { IsAhead words.now queue.now headers.new self.new }
        ensures from { self.new.from ≡ next }
    {
        let count = (queue.len() - next).min(WIDE);
        let objects = &queue[next..next + count];
        self.from = next;
        self.to = next;
        self.until = next + count;
        if lie_far(objects) {
            copy_headers(words, objects, headers);
            self.to = next + count;
        }
    }

    // The header of the object at place `next` of the queue, which is at index `i`.
    #[inline(always)]
    fn header(
        &mut self,
        words: &[u64],
        queue: &[u32],
        headers: &mut [u64; WIDE],
        next: usize,
        i: usize,
    ) -> u64
        requires within { next < length queue.now }
        requires object { slice_index queue.now next ≡ i }
        requires inside { i < length words.now }
        requires ahead { IsAhead words.now queue.now headers.old self.old }
        requires order { self.old.from ≤ next }
        ensures ahead { IsAhead words.now queue.now headers.new self.new }
        ensures order { self.new.from ≤ next }
        ensures header { result ≡ slice_index words.now i }
    {
        if next >= self.until && queue.len() - next >= FEW {
            self.look(words, queue, headers, next);
        }
        if next < self.to {
            return headers[next - self.from];
        }
        words[i]
    }

    /// The shape of the object at place `next` of the queue, which is at index `i`.
    #[inline(always)]
    pub fn shape(
        &mut self,
        edition: Edition,
        words: &[u64],
        queue: &[u32],
        headers: &mut [u64; WIDE],
        next: usize,
        i: usize,
    ) -> Shape
        requires within { next < length queue.now }
        requires object { slice_index queue.now next ≡ i }
        requires inside { i < length words.now }
        requires ahead { IsAhead words.now queue.now headers.old self.old }
        requires order { self.old.from ≤ next }
        ensures ahead { IsAhead words.now queue.now headers.new self.new }
        ensures order { self.new.from ≤ next }
        ensures refs { result.refs ≡ refs_of (header_at edition words.now i) }
        ensures weak { result.weak ≡ weak_of (header_at edition words.now i) }
        ensures size { result.size ≡ size_of (header_at edition words.now i) }
    {
        shape_of(edition, self.header(words, queue, headers, next, i))
    }
}
