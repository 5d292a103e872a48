//! A plain model of the objects, which never move. A cycle only changes their addresses.
use crate::expected::expect_eq;
use heap_layout::{Edition, Header, MarkedHeap};
use std::alloc::{AllocError, Global};
use std::process::Abort;
use test_support::{At, F};

// The index of an object that was dropped.
const NOWHERE: u64 = u64::MAX;

/// A field of an object.
#[derive(Clone, Copy)]
pub enum Field {
    Reference(u16),
    Weak(u16),
    Data(u16),
}

/// An object: its header, and its fields, references first, then weak words, then data words. A reference or a weak
/// word is the number of an object, counted from 1, an immediate of edition four, or 0. `at` is the index of its header
/// in the current heap.
#[derive(Drop)]
pub struct Plain {
    pub header: Header,
    pub fields: Vec<u64>,
    pub at: u64,
    pub kept: bool,
}

impl Plain {
    // The position of a field among all fields, or `None` if it does not exist.
    fn place(&self, field: Field) -> Option<usize> {
        let (first, count, number) = match field {
            Field::Reference(number) => (0, self.header.refs(), number),
            Field::Weak(number) => (self.header.refs() as usize, self.header.weak(), number),
            Field::Data(number) => (self.references(), self.header.data_words(), number),
        };
        if u32::from(number) < count {
            return Some(first.wrapping_add(usize::from(number)));
        }
        None
    }

    // The number of its references and weak words. They come before the data words.
    fn references(&self) -> usize {
        self.header.refs() as usize + self.header.weak() as usize
    }
}

/// All objects by number, the objects that the roots refer to, the number of mutators, and the words used of each fresh
/// page of this cycle.
#[derive(Drop)]
pub struct Life {
    pub edition: Edition,
    pub mutators: usize,
    pub objects: Vec<Plain>,
    pub roots: Vec<u64>,
    pub used: Vec<u64>,
    pub compacted: u64,
}

impl Life {
    /// The object with this number.
    pub fn object(&self, number: u64) -> Option<&Plain> {
        self.objects.get((number as usize).wrapping_sub(1))
    }

    /// The value of a field, or `None` if it does not exist.
    pub fn get(&self, number: u64, field: Field) -> Option<u64> {
        let object = self.object(number)?;
        object.fields.get(object.place(field)?).copied()
    }

    /// Sets a field. Answers whether it exists.
    pub fn set(&mut self, number: u64, field: Field, value: u64) -> bool {
        let Some(object) = self.objects.get_mut((number as usize).wrapping_sub(1)) else {
            return false;
        };
        let Some(place) = object.place(field) else {
            return false;
        };
        if let Some(word) = object.fields.get_mut(place) {
            *word = value;
        }
        true
    }

    /// Adds an object of mutator `maker`, whose fields are 0, on the first of the fresh pages `maker`, `maker +
    /// mutators`, .. that has room. Answers its number, or `None` if no page has room.
    pub fn add(
        &mut self,
        alloc: Global,
        maker: u8,
        header: Header,
    ) -> Result<Option<u64>, AllocError> {
        let size = u64::from(header.size());
        for (page, used) in self.used.iter_mut().enumerate() {
            let end = used.wrapping_add(size);
            if page.checked_rem(self.mutators) == Some(usize::from(maker)) && end <= 64 {
                let before = self.compacted.wrapping_add(page as u64).wrapping_mul(64);
                let object = Plain {
                    header,
                    fields: vec![in alloc; 0; size.wrapping_sub(1) as usize]?,
                    at: before.wrapping_add(*used),
                    kept: false,
                };
                *used = end;
                self.objects.push(object)?;
                return Ok(Some(self.objects.len() as u64));
            }
        }
        Ok(None)
    }

    // The number of the first kept object at or after this index, if there is one.
    fn next_kept(&self, from: u64) -> Option<u64> {
        let mut next = None;
        let mut least = NOWHERE;
        for (number, object) in self.objects.iter().enumerate() {
            if object.kept && object.at >= from && object.at < least {
                least = object.at;
                next = Some((number as u64).wrapping_add(1));
            }
        }
        next
    }

    /// Begins a cycle: the kept objects slide, and there are `fresh` fresh pages.
    pub fn begin(&mut self, alloc: Global, fresh: usize) -> Result<(), AllocError> {
        let mut place = 0u64;
        let mut from = 0;
        for _ in 0..self.objects.len() {
            let Some(number) = self.next_kept(from) else {
                break;
            };
            if let Some(object) = self.objects.get_mut((number as usize).wrapping_sub(1)) {
                from = object.at.wrapping_add(1);
                object.at = place;
                place = place.wrapping_add(u64::from(object.header.size()));
            }
        }
        self.compacted = place.div_ceil(64);
        self.used = vec![in alloc; 0; fresh]?;
        Ok(())
    }

    fn keep(&mut self, number: u64) {
        if let Some(object) = self.objects.get_mut((number as usize).wrapping_sub(1)) {
            object.kept = true;
        }
    }

    // Keeps all objects that a kept object refers to.
    fn keep_targets(&mut self, object: usize) {
        let count = match self.objects.get(object) {
            Some(one) if one.kept => one.header.refs(),
            _ => 0,
        };
        for field in 0..(count % 65_536) as u16 {
            let number = (object as u64).wrapping_add(1);
            if let Some(target) = self.get(number, Field::Reference(field)) {
                self.keep(target);
            }
        }
    }

    /// Marks: keeps the objects that are reachable from the roots by references, and no others. Answers the indices of
    /// their headers, rising.
    pub fn mark(&mut self, alloc: Global) -> Result<Vec<u32>, AllocError> {
        for object in &mut self.objects {
            object.kept = false;
        }
        for root in 0..self.roots.len() {
            let number = self.roots.get(root).copied().unwrap_or(0);
            self.keep(number);
        }
        for _ in 0..self.objects.len() {
            for object in 0..self.objects.len() {
                self.keep_targets(object);
            }
        }
        self.marks(alloc)
    }

    /// The number of words of the objects that are kept.
    pub fn kept_words(&self) -> u64 {
        let mut words = 0u64;
        for object in &self.objects {
            if object.kept {
                words = words.wrapping_add(u64::from(object.header.size()));
            }
        }
        words
    }

    fn marks(&self, alloc: Global) -> Result<Vec<u32>, AllocError> {
        let mut marks = Vec::new(alloc);
        let mut from = 0;
        for _ in 0..self.objects.len() {
            let Some(object) = self.next_kept(from).and_then(|number| self.object(number)) else {
                break;
            };
            marks.push((object.at % 4_294_967_296) as u32)?;
            from = object.at.wrapping_add(1);
        }
        Ok(marks)
    }

    // The from-space address of an object, an immediate itself, or null for number 0.
    fn address(&self, number: u64) -> u64 {
        match self.object(number) {
            Some(object) => F.wrapping_add(object.at),
            None if self.edition.is_immediate(number) => number,
            None => 0,
        }
    }

    // Checks that this heap has the words of this object.
    fn expect_words(&self, rt: &impl Abort, heap: &MarkedHeap, name: &str, object: &Plain) {
        let index = object.at as usize;
        let header = heap.words().get(index).copied();
        expect_eq(
            rt,
            At {
                case: name,
                row: object.at,
            },
            header,
            Some(object.header.word()),
        );
        for (field, value) in object.fields.iter().enumerate() {
            let wanted = match field < object.references() {
                true => self.address(*value),
                false => *value,
            };
            let found = heap
                .words()
                .get(index.wrapping_add(1).wrapping_add(field))
                .copied();
            expect_eq(
                rt,
                At {
                    case: name,
                    row: object.at,
                },
                found,
                Some(wanted),
            );
        }
    }

    /// Checks that the next heap has the words of all objects, kept or not, and the roots.
    pub fn expect_heap(&self, rt: &impl Abort, heap: &MarkedHeap, name: &str) {
        expect_eq(rt, At::new(name, 0), heap.edition(), self.edition);
        for object in &self.objects {
            if object.at != NOWHERE {
                self.expect_words(rt, heap, name, object);
            }
        }
        for (root, number) in self.roots.iter().enumerate() {
            let found = heap.roots().get(root).copied();
            expect_eq(rt, At::new(name, root), found, Some(self.address(*number)));
        }
    }

    // Whether the object with this number is not kept.
    fn is_dropped(&self, number: u64) -> bool {
        match self.object(number) {
            Some(object) => !object.kept,
            None => false,
        }
    }

    /// Drops the objects that are not kept. Each weak word for one of them becomes null.
    pub fn drop_others(&mut self) {
        for object in 0..self.objects.len() {
            let number = (object as u64).wrapping_add(1);
            let weak = match self.object(number) {
                Some(one) => one.header.weak(),
                None => 0,
            };
            for field in 0..(weak % 65_536) as u16 {
                let target = self.get(number, Field::Weak(field)).unwrap_or(0);
                if self.is_dropped(target) {
                    self.set(number, Field::Weak(field), 0);
                }
            }
        }
        for object in &mut self.objects {
            if !object.kept {
                object.at = NOWHERE;
            }
        }
    }
}
