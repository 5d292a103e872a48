//! What the audit says of a fault: what is in the dump, and what should be there.
use comp_journal::Entry;
use heap_layout::{Edition, Kind};

/// How much a dump has: of how many pages how many are built, and how many entries they have.
#[derive(Clone, Copy, Debug, PartialEq, Eq)]
pub struct DumpCounts {
    pub built: u64,
    pub pages: u64,
    pub entries: u64,
}

/// A marked object: its number among the marked objects (from 0), the from-space index of its header, its address after
/// the slide, and its header.
#[derive(Clone, Copy, Debug, PartialEq, Eq)]
pub struct SlidObject {
    pub number: u64,
    pub index: u64,
    pub address: u64,
    pub header: u64,
}

/// A marked object whose header is not at its address, and the word that is there.
#[derive(Clone, Copy, Debug, PartialEq, Eq)]
pub struct OutOfPlace {
    pub object: SlidObject,
    pub is: u64,
}

/// A word that is not what the page's journal makes of its base: its page and its offset there, the word that is there,
/// and the one that should be.
#[derive(Clone, Copy, Debug, PartialEq, Eq)]
pub struct WrongWordAt {
    pub page: u64,
    pub offset: u64,
    pub is: u64,
    pub should_be: u64,
    /// The object that has the word after the slide; None on a fresh page and after the last slid word.
    pub object: Option<SlidObject>,
    /// The first marked object whose header is not at its address, among those whose address is on a page that was
    /// built.
    pub out_of_place: Option<OutOfPlace>,
}

/// A reference or weak word that leads to no object: its page, its offset there, and the word.
#[derive(Clone, Copy, Debug, PartialEq, Eq)]
pub struct LooseWordAt {
    pub page: u64,
    pub offset: u64,
    pub is: u64,
    /// The last entry of the page at the offset; None if no entry of the page is at it.
    pub entry: Option<LooseEntry>,
}

/// The last entry at the offset of a loose word: its number on its page, the entry, and why it does not fit; None if
/// nothing is wrong with it.
#[derive(Clone, Copy, Debug, PartialEq, Eq)]
pub struct LooseEntry {
    pub number: u64,
    pub entry: Entry,
    pub cause: Option<EntryCause>,
}

/// What is wrong with the head of a dump.
#[derive(Clone, Copy, Debug, PartialEq, Eq)]
pub enum HeadCause {
    /// The edition of the dump, and that of the heap.
    Edition(Edition, Edition),
    /// How many pages the dump has, and how many it should have: those of the plan and the fresh pages.
    Pages(u64, u64),
    /// How many roots the dump has, and how many the heap has.
    Roots(u64, u64),
    /// The first root that is not the forwarded root of the heap.
    Root(RootAt),
}

/// A root of the dump that is not the forwarded root of the heap: its number, the root that is there, and the one that
/// should be.
#[derive(Clone, Copy, Debug, PartialEq, Eq)]
pub struct RootAt {
    pub number: u64,
    pub is: u64,
    pub should_be: u64,
}

/// The total that a dump has, and the one that it should have: the words that slid and those of new objects.
#[derive(Clone, Copy, Debug, PartialEq, Eq)]
pub struct Totals {
    pub is: u64,
    pub should_be: u128,
}

/// Who says that a page was built: whether it was, how often all lists of builds name it, and how often each of them
/// does.
#[derive(Clone, Copy, Debug, PartialEq, Eq)]
pub struct Claims {
    pub page: u64,
    pub is_built: bool,
    pub named: u64,
    /// How often the list of each mutator names the page, by the number of the mutator; 0 past the last list.
    pub by: [u32; 64],
}

/// The entries that have a stamp: how many they are, and the first and the last page with one of them.
#[derive(Clone, Copy, Debug, PartialEq, Eq)]
pub struct StampUses {
    pub stamp: u64,
    pub entries: u64,
    pub first_page: u64,
    pub last_page: u64,
}

/// A stamp that no entry has, and how many entries there are.
#[derive(Clone, Copy, Debug, PartialEq, Eq)]
pub struct StampLost {
    pub stamp: u64,
    pub entries: u64,
}

/// Why an entry does not fit: the first that holds of these causes, in the order of the checks.
#[derive(Clone, Copy, Debug, PartialEq, Eq)]
pub enum EntryCause {
    /// Its stamp is not above that of the entry before it on its page, which is this.
    StampNotAbove(u64),
    /// It writes a header, and its page is compacted, or past the last page.
    NoFreshPage,
    /// It writes a header, and this other mutator makes the objects of its page.
    OtherMaker(u64),
    /// It writes a header elsewhere than at this offset, where the objects before it end.
    NotNext(u64),
    /// It writes the header of an object that ends at this offset, past its page.
    PastPage(u64),
    /// The word at its offset is of this kind and not of the entry's; None if the word belongs to no object.
    OtherWord(Option<Kind>),
    /// It fits where it is, and writes the address of no object.
    LeadsNowhere,
    /// It fits where it is, and writes the address of a new object whose header is not older: this is the least stamp
    /// of a header there.
    LeadsAhead(u64),
}

/// An entry that does not fit: its page, its number there, the entry, what it is held against, and the cause.
#[derive(Clone, Copy, Debug, PartialEq, Eq)]
pub struct BadEntryAt {
    pub page: u64,
    pub number: u64,
    pub entry: Entry,
    /// The stamp of the entry before it on its page; None for the first.
    pub stamp_before: Option<u64>,
    /// The mutator that makes objects on the page; None for a compacted page.
    pub maker: Option<u64>,
    /// How many words of the page belong to the objects that the entries before it made.
    pub filled: u64,
    pub cause: EntryCause,
}

/// A compacted page that was never built, and how many compacted pages there are.
#[derive(Clone, Copy, Debug, PartialEq, Eq)]
pub struct MissingPage {
    pub page: u64,
    pub compacted: u64,
}

/// What is wrong, with numbers: an arm for each fault, and `NoSuchFault` if the dump does not have it.
#[derive(Clone, Copy, Debug, PartialEq, Eq)]
pub enum Explanation {
    WrongWord(WrongWordAt),
    LooseReference(LooseWordAt),
    BadEntry(BadEntryAt),
    StampRepeated(StampUses),
    StampMissing(StampLost),
    WrongTotal(Totals),
    BuildUnclaimed(Claims),
    WrongHead(HeadCause),
    PageMissing(MissingPage),
    NoSuchFault,
}
