//! A row of objects that the roots reach.
ghost use Rattle.std.specs.Prelude.{◌≡◌, ℕ, ◌*◌, ◌≤◌, [], length, true};
ghost use Rattle.heap_layout.specs.Bits.{bit};
ghost use Rattle.mark_job.specs.Asked.{IsMetIn, AreMetIn};

use crate::image::Image;
use heap_layout::set;
use std::alloc::Global;
use std::marker::Model;

/// Objects that the roots reach, by their indices. The references of the first `next` were followed.
#[derive(Drop)]
pub struct Lane {
    pub(crate) objects: Vec<u32>,
    pub(crate) next: usize,
}

impl Model for Lane {
    ghost use Rattle.std.specs.Prelude.{ℕ, List};

    ghost Value = { List ℕ };

    ghost view = { λ lane. lane.objects.items };
}

impl Lane {
    /// A lane of no objects.
    pub(crate) fn new(alloc: Global) -> Lane
        ensures { result ≡ [] }
    {
        Lane {
            objects: Vec::new(alloc),
            next: 0,
        }
    }

    /// How many objects wait there.
    pub(crate) fn waiting(&self) -> usize {
        self.objects.len().saturating_sub(self.next)
    }

    /// Moves half of the objects that wait there, and at most so many, to the end of another lane. If memory runs out,
    /// some of them.
    pub(crate) fn move_half(&mut self, image: &Image, to: &mut Lane, most: usize)
        requires from { AreMetIn image.now self.old }
        requires to { AreMetIn image.now to.old }
        ensures from { AreMetIn image.now self.new }
        ensures to { AreMetIn image.now to.new }
    {
        // Only the clauses read it.
        let _ = image;
        let count = (self.waiting() / 2).min(most);
        for _ in 0..count {
            let len = self.objects.len();
            if len == 0 || to.objects.push(self.objects[len - 1]).is_err() {
                return;
            }
            self.objects.pop();
        }
    }

    /// Moves as `move_half` does, and says nothing of the objects.
    pub(crate) fn give_half(&mut self, to: &mut Lane, most: usize) {
        let count = (self.waiting() / 2).min(most);
        for _ in 0..count {
            let len = self.objects.len();
            if len == 0 || to.objects.push(self.objects[len - 1]).is_err() {
                return;
            }
            self.objects.pop();
        }
    }

    /// Sets the bits of its objects.
    pub(crate) fn mark(&self, image: &Image, heads: &mut [u64])
        requires lane { AreMetIn image.now self.now }
        requires room { length image.now.words ≤ 64 * length heads.old }
        requires met { (i : ℕ) → bit heads.old i ≡ true → IsMetIn image.now i }
        ensures met { (i : ℕ) → bit heads.new i ≡ true → IsMetIn image.now i }
        ensures length { length heads.new ≡ length heads.old }
    {
        // Only the clauses read it.
        let _ = image;
        for k in 0..self.objects.len() {
            set(heads, self.objects[k] as usize);
        }
    }

    /// Sets the bits of its objects if this word, which says whether the lane is at home, is 0.
    pub(crate) fn mark_if(&self, word: u64, image: &Image, heads: &mut [u64])
        requires lane { word ≡ 0 → AreMetIn image.now self.now }
        requires room { length image.now.words ≤ 64 * length heads.old }
        requires met { (i : ℕ) → bit heads.old i ≡ true → IsMetIn image.now i }
        ensures met { (i : ℕ) → bit heads.new i ≡ true → IsMetIn image.now i }
        ensures length { length heads.new ≡ length heads.old }
    {
        if word != 0 {
            return;
        }
        self.mark(image, heads);
    }
}
