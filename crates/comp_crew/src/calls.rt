//! Allocations, and calls on whole pages. None of them waits or retries: the answer is `Busy` if another member won a
//! compare-and-swap. A refused call wrote no entry; but it may have built its page, unless it is `try_touch`.
ghost use Rattle.std.specs.Prelude.{◌≡◌, ℕ, ◌+◌, ◌<◌, Ok, IfErr, IfOk, IsErrOf, OnErr, OnOk};
ghost use Rattle.heap_layout.specs.Header.{header_of, header_with, size_of};
ghost use Rattle.cell_steps.specs.Setup as setups;
ghost use Rattle.cell_steps.specs.Passes.{builds_of, did, lost, HasSeenBuilt};
ghost use Rattle.page_cells.specs.Calls.{Grows, WroteNothing};
ghost use Rattle.comp_access.specs.Allocations.{asked_size, Allocates, AllocatesAsked, AllocationRefused, AskedRefused};
ghost use Rattle.comp_access.specs.Copies.{builds_after, CopyRefused, IsCopy, PageRefused};
ghost use Rattle.comp_access.specs.Reads.{KnowsBuilt, MayBuild};
ghost use Rattle.comp_access.specs.declared.pages.Touched.TheVariants.{AlreadyBuilt};
ghost use Rattle.comp_access.specs.declared.refusal.Refusal.TheVariants.{Busy};
ghost use Rattle.comp_access.specs.declared.refusal.Refusal.TheVariants as refusals;
ghost use Rattle.comp_crew.specs.Members.{crew_of, made_of, pass_of, setup_of, IsMember};

use crate::member::Member;
use comp_access::{PageCopy, Refusal, Touched, asked_header};
use heap_layout::Header;
use std::alloc::Global;

impl Member {
    /// Makes an object of `refs` null references, `weak` null weak words and `data_words` zero data words, in this
    /// order, and answers its address. The object follows the others on the lowest of the member's own fresh pages that
    /// has room. Weak words in edition one, a tag of 2^16 or more in edition two, and one of 2^14 or more in editions
    /// three and four are refused before anything else (`NotInEdition`); then nothing is built or seen.
    #[inline(always)]
    pub fn try_alloc_weak(
        &mut self,
        alloc: Global,
        refs: u16,
        weak: u16,
        data_words: u16,
        tag: u32,
    ) -> Result<u64, Refusal>
        requires { IsMember self.old }
        ensures of { IsMember self.new }
        ensures crew { crew_of self.new ≡ crew_of self.old }
        ensures made { OnOk result (made_of self.new ≡ made_of self.old + asked_size (header_with (setup_of self.old).heap.edition refs weak data_words tag)) }
        ensures grows { Grows (pass_of self.old) (pass_of self.new) }
        ensures alone { (setup_of self.old).mutators ≡ 1 → (q : ℕ) → IsErrOf result (Busy q) → ⊥ }
        ensures allocated { IfOk result (AllocatesAsked (setup_of self.old) (pass_of self.old) (pass_of self.new) (header_with (setup_of self.old).heap.edition refs weak data_words tag)) }
        ensures did { OnErr result ((did (pass_of self.new) ≡ did (pass_of self.old)) × (made_of self.new ≡ made_of self.old)) }
        ensures refused { IfErr result (AskedRefused (setup_of self.old) (pass_of self.old) (pass_of self.new) (header_with (setup_of self.old).heap.edition refs weak data_words tag)) }
    {
        let Member { crew, hand } = self;
        let header = asked_header(&crew.cells, refs, weak, data_words, tag)?;
        hand.alloc_with(alloc, &crew.cells, header)
    }

    /// Makes an object whose header is this word, of null references, null weak words and zero data words, and answers
    /// its address. The object follows the others on the lowest of the member's own fresh pages that has room.
    #[inline(always)]
    pub fn try_alloc_word(&mut self, alloc: Global, word: u64) -> Result<u64, Refusal>
        requires { IsMember self.old }
        ensures of { IsMember self.new }
        ensures crew { crew_of self.new ≡ crew_of self.old }
        ensures made { OnOk result (made_of self.new ≡ made_of self.old + size_of (header_of (setup_of self.old).heap.edition word)) }
        ensures grows { Grows (pass_of self.old) (pass_of self.new) }
        ensures alone { (setup_of self.old).mutators ≡ 1 → (q : ℕ) → IsErrOf result (Busy q) → ⊥ }
        ensures allocated { IfOk result (Allocates (setup_of self.old) (pass_of self.old) (pass_of self.new) (header_of (setup_of self.old).heap.edition word)) }
        ensures did { OnErr result ((did (pass_of self.new) ≡ did (pass_of self.old)) × (made_of self.new ≡ made_of self.old)) }
        ensures refused { IfErr result (AllocationRefused (setup_of self.old) (pass_of self.old) (pass_of self.new) (size_of (header_of (setup_of self.old).heap.edition word))) }
    {
        let Member { crew, hand } = self;
        let header = Header::from_word_of(crew.cells.edition(), word);
        hand.alloc_with(alloc, &crew.cells, header)
    }

    /// Builds page `p` if it is not built yet. Requires a page that exists.
    #[inline(always)]
    pub fn try_touch(&mut self, alloc: Global, p: u64) -> Result<Touched, Refusal>
        requires of { IsMember self.old }
        requires inside { p < setups.pages (setup_of self.old) }
        ensures of { IsMember self.new }
        ensures crew { crew_of self.new ≡ crew_of self.old }
        ensures made { made_of self.new ≡ made_of self.old }
        ensures grows { Grows (pass_of self.old) (pass_of self.new) × WroteNothing (pass_of self.old) (pass_of self.new) }
        ensures touched { IfOk result (λ touched. HasSeenBuilt (pass_of self.new) p × (builds_of (pass_of self.new) ≡ builds_after (builds_of (pass_of self.old)) p touched)) }
        ensures alone { (setup_of self.old).mutators ≡ 1 → (q : ℕ) → IsErrOf result (Busy q) → ⊥ }
        ensures known { KnowsBuilt (pass_of self.old) p → result ≡ Ok AlreadyBuilt }
        ensures unbuilt { (q : ℕ) → IsErrOf result (Busy q) → HasSeenBuilt (pass_of self.new) p → ⊥ }
        ensures unlost { IsErrOf result refusals.OutOfMemory → lost (pass_of self.new) p ≡ lost (pass_of self.old) p }
        ensures refused { IfErr result (λ refusal. (builds_of (pass_of self.new) ≡ builds_of (pass_of self.old)) × PageRefused p (pass_of self.old) (pass_of self.new) refusal) }
    {
        let Member { crew, hand } = self;
        hand.try_touch(alloc, &crew.cells, p)
    }

    /// Copies page `p` as the mutator has then seen it: its words and its journal. If nobody has built the page, the
    /// call builds it first; it stays built if the copy is then refused. Requires a page that exists.
    pub fn page_copy(&mut self, alloc: Global, p: u64) -> Result<PageCopy, Refusal>
        requires of { IsMember self.old }
        requires inside { p < setups.pages (setup_of self.old) }
        ensures of { IsMember self.new }
        ensures crew { crew_of self.new ≡ crew_of self.old }
        ensures made { made_of self.new ≡ made_of self.old }
        ensures grows { Grows (pass_of self.old) (pass_of self.new) × (did (pass_of self.new) ≡ did (pass_of self.old)) }
        ensures alone { (setup_of self.old).mutators ≡ 1 → (q : ℕ) → IsErrOf result (Busy q) → ⊥ }
        ensures copy { IfOk result (IsCopy (setup_of self.old) (pass_of self.new) p) }
        ensures builds { MayBuild p (pass_of self.old) (pass_of self.new) }
        ensures refused { IfErr result (CopyRefused p (pass_of self.old) (pass_of self.new)) }
    {
        let Member { crew, hand } = self;
        hand.page_copy(alloc, &crew.cells, p)
    }
}
