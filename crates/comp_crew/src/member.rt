ghost use Rattle.std.specs.Prelude.{◌≡◌, length};
ghost use Rattle.cell_steps.specs.Setup as setups;
ghost use Rattle.cell_steps.specs.Passes.{builds_of, did, edition_of, number_of};
ghost use Rattle.comp_history.specs.MadeWords.{allocated};
ghost use Rattle.comp_cycles.specs.Forwarded.{AreForwarded};

use crate::crew::Crew;
use comp_access::Hand;
use heap_layout::Edition;
use std::sync::Arc;

/// A mutator of a crew: a reader and writer of a heap that is being compacted, with a share of what the crew has.
#[derive(Drop)]
pub struct Member {
    pub(crate) crew: Arc<Crew>,
    pub(crate) hand: Hand,
}

impl Member {
    ghost use Rattle.comp_crew.specs.Members.{made_of, name_of, pass_of};
    ghost use Rattle.comp_crew.specs.Members as members;

    /// The mutator's number.
    pub fn number(&self) -> u8
        ensures { result ≡ number_of (pass_of self.now) }
    {
        self.hand.number()
    }

    /// The name of its crew.
    pub fn crew_name(&self) -> u64
        ensures { result ≡ name_of self.now }
    {
        self.crew.name
    }

    /// The edition of the heap.
    pub fn edition(&self) -> Edition
        ensures { result ≡ (members.setup_of self.now).heap.edition }
    {
        self.crew.cells.edition()
    }

    /// How many mutators the crew has.
    pub fn mutators(&self) -> u8
        ensures { result ≡ (members.setup_of self.now).mutators }
    {
        self.crew.mutators
    }

    /// The forwarded roots of the heap, in order.
    pub fn roots(&self) -> &[u64]
        ensures { AreForwarded (members.setup_of self.now).heap result.now }
    {
        &self.crew.roots
    }

    /// The number of pages, compacted and fresh together.
    pub fn pages(&self) -> u64
        ensures { result ≡ setups.pages (members.setup_of self.now) }
    {
        self.crew.cells.pages()
    }

    /// The number of compacted pages, which the slid objects fill. The fresh pages follow them.
    pub fn compacted_pages(&self) -> u64
        ensures { result ≡ (members.setup_of self.now).compacted }
    {
        self.crew.cells.compacted_pages()
    }

    /// The pages that the mutator built, in order.
    pub fn builds(&self) -> &[u64]
        ensures { result.now ≡ builds_of (pass_of self.now) }
    {
        self.hand.builds()
    }

    /// The number of entries that the mutator wrote: one for each write and each allocation that answered Ok. Takes no
    /// memory.
    pub fn entries(&self) -> u64
        ensures { result ≡ length (did (pass_of self.now)) }
    {
        self.hand.entries()
    }

    /// The number of words of all objects that the mutator allocated.
    pub fn made_words(&self) -> u64
        ensures made { result ≡ made_of self.now }
        ensures counted { result ≡ allocated (edition_of (pass_of self.now)) (did (pass_of self.now)) }
    {
        self.hand.made_words()
    }
}
