/// What a line of a trace does. A register is one of the 16 of its mutator, numbered from 0.
#[derive(Clone, Copy, Debug, PartialEq, Eq)]
pub enum Action {
    /// Sets register `to` to a shared root.
    Root {
        to: u8,
        root: u32,
    },
    /// Sets register `to` to a reference field, or to a weak field if `weak`, of the object in register `object`.
    Load {
        weak: bool,
        to: u8,
        object: u8,
        field: u16,
    },
    /// Shows a data field of the object in register `object`.
    Get {
        object: u8,
        field: u16,
    },
    /// Writes register `value` into a reference field, or into a weak field if `weak`, of the object in register
    /// `object`.
    Store {
        weak: bool,
        object: u8,
        field: u16,
        value: u8,
    },
    /// Writes `value` into a data field of the object in register `object`.
    Put {
        object: u8,
        field: u16,
        value: u64,
    },
    /// Makes an object with these numbers of references, weak words and data words, and this tag, and sets register
    /// `to` to it. A line `new` has no weak words.
    New {
        to: u8,
        refs: u16,
        weak: u16,
        data_words: u16,
        tag: u32,
    },
    /// Sets register `to` to null.
    Nil {
        to: u8,
    },
    /// Sets register `to` to the immediate with this payload: the word 2^63 + `payload`.
    Immediate {
        to: u8,
        payload: u64,
    },
}

/// A line of a trace: the number of its mutator, and what that mutator does.
#[derive(Clone, Copy, Debug, PartialEq, Eq)]
pub struct Line {
    pub mutator: u8,
    pub action: Action,
}
