//! What the words ask.
use heap_layout::MAX_LARGE_WORDS;

/// What a round does.
#[derive(Clone, Copy)]
pub enum Mode {
    /// Nothing: the heap is only made.
    Make,
    /// A survey with no roots.
    Clear,
    /// A survey with the root.
    Mark,
    /// A slide of all that is live, by one survey with the root that is made before the rounds.
    Slide,
    /// A whole collection.
    Collect,
    /// A copy of the heap, and a whole collection within its words.
    CollectInPlace,
    /// A whole collection by tables that are made once before the rounds.
    CollectLent,
    /// A whole collection by threads.
    CollectByThreads,
    /// A copy of the heap alone.
    Copy,
    /// A survey with the root by so many threads.
    MarkByThreads(usize),
}

/// What the heap is.
#[derive(Clone, Copy)]
pub enum Shape {
    /// A binary tree of the live objects, in an order that looks as if it were drawn.
    Drawn,
    /// A binary tree of the live objects, level by level, as they lie.
    Levels,
    /// A binary tree of all objects, each subtree behind its parent.
    Tree,
    /// Objects whose references lead anywhere.
    Graph,
    /// A table, and chains of objects of which each begins at one of its references.
    Chains,
    /// A binary tree of arrays, whose other references lead to objects.
    Arrays,
    /// A list of all objects.
    List,
    /// One array, whose references lead to all objects.
    Array,
}

/// What the words ask of each mode.
#[derive(Clone, Copy)]
pub struct Asked {
    /// The number of words of the heap.
    pub words: u32,
    /// The number of references of each object.
    pub refs: u16,
    /// The number of data words of each object.
    pub data_words: u16,
    /// How many objects of a hundred are reached, in a heap that is drawn or goes level by level.
    pub live: u32,
    /// What the heap is.
    pub shape: Shape,
    /// The number of rounds.
    pub rounds: u32,
}

impl Asked {
    /// The number of words of each object.
    pub fn object_words(self) -> u32 {
        1 + u32::from(self.refs) + u32::from(self.data_words)
    }

    /// The number of objects of the heap.
    pub fn objects(self) -> u32 {
        self.words.checked_div(self.object_words()).unwrap_or(0)
    }
}

// The number that the word at a position is.
fn number(words: &[String], at: usize) -> Option<u32> {
    words.get(at)?.parse::<u32>().ok()
}

// The number of fields that the word at a position is.
fn fields(words: &[String], at: usize) -> Option<u16> {
    words.get(at)?.parse::<u16>().ok()
}

// The shape of this number.
fn shape_of(number: &str) -> Option<Shape> {
    match number {
        "0" => Some(Shape::Drawn),
        "1" => Some(Shape::Levels),
        "2" => Some(Shape::Tree),
        "3" => Some(Shape::Graph),
        "4" => Some(Shape::Chains),
        "5" => Some(Shape::Arrays),
        "6" => Some(Shape::List),
        "7" => Some(Shape::Array),
        _ => None,
    }
}

/// What the first six words ask; `None` if they are not six numbers, if there is no such shape, or if the heap would
/// have too many words.
pub fn asked_by(words: &[String]) -> Option<Asked> {
    let asked = Asked {
        words: number(words, 0)?,
        refs: fields(words, 1)?,
        data_words: fields(words, 2)?,
        live: number(words, 3)?,
        shape: shape_of(words.get(4)?)?,
        rounds: number(words, 5)?,
    };
    if asked.words as usize > MAX_LARGE_WORDS {
        return None;
    }
    Some(asked)
}

/// The mode of this name.
pub fn mode_of(name: &str) -> Option<Mode> {
    match name {
        "0" => Some(Mode::Make),
        "1" => Some(Mode::Clear),
        "2" => Some(Mode::Mark),
        "3" => Some(Mode::Slide),
        "4" => Some(Mode::Collect),
        "5" => Some(Mode::CollectInPlace),
        "6" => Some(Mode::CollectLent),
        "7" => Some(Mode::CollectByThreads),
        "8" => Some(Mode::Copy),
        "9" => Some(Mode::MarkByThreads(1)),
        "10" => Some(Mode::MarkByThreads(2)),
        "11" => Some(Mode::MarkByThreads(4)),
        _ => None,
    }
}
