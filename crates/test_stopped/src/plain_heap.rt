//! A plain model of a heap at rest. It marks and slides by loops over an array of objects, with no bits and no sums.
use heap_layout::{Edition, FROM_SPACE as F};
use std::alloc::{AllocError, Global};

/// What a test writes into the memory into which a heap slides, to see what is left as it was.
pub const BEFORE: u64 = 7;

/// An object: the index of its header, the word of its header, and how many references, weak words and data words
/// follow it. `kept` says whether the roots reach it, and `to` to which index it slides then.
#[derive(Clone, Copy)]
pub struct Plain {
    pub at: u64,
    pub header: u64,
    pub refs: u64,
    pub weak: u64,
    pub data: u64,
    pub kept: bool,
    pub to: u64,
}

impl Plain {
    /// How many words it has, with its header.
    pub fn size(&self) -> u64 {
        let fields = self.refs.saturating_add(self.weak);
        fields.saturating_add(self.data).saturating_add(1)
    }

    /// The index of the word behind it.
    pub fn end(&self) -> u64 {
        self.at.saturating_add(self.size())
    }

    /// The address of its header.
    pub fn address(&self) -> u64 {
        self.at.saturating_add(F)
    }

    /// The index of its first reference.
    pub fn first_ref(&self) -> u64 {
        self.at.saturating_add(1)
    }

    /// The index of its first weak word.
    pub fn first_weak(&self) -> u64 {
        self.first_ref().saturating_add(self.refs)
    }

    /// The index of its first data word.
    pub fn first_data(&self) -> u64 {
        self.first_weak().saturating_add(self.weak)
    }
}

/// The words and roots of a heap, and its objects by rising index. The other words are no objects.
#[derive(Drop)]
pub struct PlainHeap {
    pub edition: Edition,
    pub words: Vec<u64>,
    pub objects: Vec<Plain>,
    pub roots: Vec<u64>,
}

impl PlainHeap {
    /// The word at this index, or 0 past the end.
    pub fn word(&self, at: u64) -> u64 {
        self.words.get(at as usize).copied().unwrap_or(0)
    }

    /// Sets the word at this index, if there is one.
    pub fn set(&mut self, at: u64, value: u64) {
        if let Some(word) = self.words.get_mut(at as usize) {
            *word = value;
        }
    }

    /// How many words it has.
    pub fn count(&self) -> u64 {
        self.words.len() as u64
    }

    /// Whether a root, a reference or a weak word is an immediate.
    pub fn is_immediate(&self, word: u64) -> bool {
        self.edition == Edition::Four && word >> 63 == 1
    }

    /// The object with this address.
    pub fn object_at(&self, address: u64) -> Option<Plain> {
        for object in &self.objects {
            if object.address() == address {
                return Some(*object);
            }
        }
        None
    }

    // Keeps the object with this address. Answers whether there is one that was not kept before.
    fn keep(&mut self, address: u64) -> bool {
        for object in &mut self.objects {
            if object.address() == address && !object.kept {
                object.kept = true;
                return true;
            }
        }
        false
    }

    // Keeps what each kept object refers to. Answers whether an object was not kept before.
    fn keep_targets(&mut self) -> bool {
        let mut more = false;
        for number in 0..self.objects.len() {
            let Some(object) = self.objects.get(number).copied() else {
                continue;
            };
            if object.kept {
                for field in 0..object.refs {
                    let reference = self.word(object.first_ref().saturating_add(field));
                    if self.keep(reference) {
                        more = true;
                    }
                }
            }
        }
        more
    }

    /// Keeps the objects that the roots reach by references, and no others.
    pub fn mark(&mut self) {
        for object in &mut self.objects {
            object.kept = false;
        }
        for root in 0..self.roots.len() {
            let address = self.roots.get(root).copied().unwrap_or(0);
            self.keep(address);
        }
        for _ in 0..self.objects.len() {
            if !self.keep_targets() {
                break;
            }
        }
    }

    /// Slides the kept objects, each behind the one before. Answers how many words they have.
    pub fn slide(&mut self) -> u64 {
        let mut next = 0u64;
        for object in &mut self.objects {
            if object.kept {
                object.to = next;
                next = next.saturating_add(object.size());
            }
        }
        next
    }

    /// Where a word leads after the slide: an immediate stays, and a word that leads to no kept object becomes null.
    pub fn moved(&self, word: u64) -> u64 {
        if self.is_immediate(word) {
            return word;
        }
        match self.object_at(word) {
            Some(object) if object.kept => object.to.saturating_add(F),
            _ => 0,
        }
    }

    // Adds the words of an object as they are after the slide.
    fn put_slid(&self, object: Plain, slid: &mut Vec<u64>) -> Result<(), AllocError> {
        slid.push(object.header)?;
        for at in object.first_ref()..object.first_data() {
            slid.push(self.moved(self.word(at)))?;
        }
        for at in object.first_data()..object.end() {
            slid.push(self.word(at))?;
        }
        Ok(())
    }

    /// The words of the kept objects after the slide.
    pub fn slid_words(&self, alloc: Global) -> Result<Vec<u64>, AllocError> {
        let mut slid = Vec::new(alloc);
        for object in &self.objects {
            if object.kept {
                self.put_slid(*object, &mut slid)?;
            }
        }
        Ok(slid)
    }

    /// The roots after the slide.
    pub fn moved_roots(&self, alloc: Global) -> Result<Vec<u64>, AllocError> {
        let mut moved = Vec::new(alloc);
        for root in &self.roots {
            moved.push(self.moved(*root))?;
        }
        Ok(moved)
    }

    /// The marks of the kept objects, one bit for each word.
    pub fn mark_bits(&self, alloc: Global) -> Result<Vec<u64>, AllocError> {
        let mut bits = vec![in alloc; 0u64; self.words.len().div_ceil(64)]?;
        for object in &self.objects {
            if object.kept {
                if let Some(block) = bits.get_mut((object.at / 64) as usize) {
                    *block |= 1u64 << (object.at % 64);
                }
            }
        }
        Ok(bits)
    }
}
