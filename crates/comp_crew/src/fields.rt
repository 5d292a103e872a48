//! Reads and writes of fields, and reads of headers. None of them waits or retries: the answer is `Busy` if another
//! member won a compare-and-swap. A refused call wrote no entry; but it may have built its page.
ghost use Rattle.std.specs.Prelude.{◌≡◌, true};
ghost use Rattle.heap_layout.specs.Kinds.{refers};
ghost use Rattle.heap_layout.specs.declared.kind.Kind.TheVariants as kinds;
ghost use Rattle.comp_access.specs.HeaderCalls.{IsHeaderRead};
ghost use Rattle.comp_access.specs.ReadCalls.{IsRead};
ghost use Rattle.comp_access.specs.WriteCalls.{IsWrite};
ghost use Rattle.comp_crew.specs.Members.{crew_of, made_of, pass_of, setup_of, IsMember};

use crate::member::Member;
use comp_access::Refusal;
use heap_layout::Kind;
use std::alloc::Global;

impl Member {
    /// Reads a field of a kind that refers. Answers null, or the address of an object that the mutator knows from then
    /// on. Requires a kind that refers.
    #[inline(always)]
    pub fn try_read_referring(
        &mut self,
        alloc: Global,
        kind: Kind,
        object: u64,
        field: u32,
    ) -> Result<u64, Refusal>
        requires of { IsMember self.old }
        requires refers { refers kind ≡ true }
        ensures of { IsMember self.new }
        ensures crew { crew_of self.new ≡ crew_of self.old }
        ensures made { made_of self.new ≡ made_of self.old }
        ensures read { IsRead (setup_of self.old) (pass_of self.old) (pass_of self.new) kind object field result }
    {
        let Member { crew, hand } = self;
        hand.try_read_referring(alloc, &crew.cells, kind, object, field)
    }

    /// Reads a data field, whatever its number.
    #[inline(always)]
    pub fn try_read_data_at(
        &mut self,
        alloc: Global,
        object: u64,
        field: u32,
    ) -> Result<u64, Refusal>
        requires { IsMember self.old }
        ensures of { IsMember self.new }
        ensures crew { crew_of self.new ≡ crew_of self.old }
        ensures made { made_of self.new ≡ made_of self.old }
        ensures read { IsRead (setup_of self.old) (pass_of self.old) (pass_of self.new) kinds.Data object field result }
    {
        let Member { crew, hand } = self;
        hand.try_read_data_at(alloc, &crew.cells, object, field)
    }

    /// Answers the header word of an object that the mutator knows. It builds no page, and is never busy.
    pub fn try_header(&mut self, alloc: Global, object: u64) -> Result<u64, Refusal>
        requires { IsMember self.old }
        ensures of { IsMember self.new }
        ensures crew { crew_of self.new ≡ crew_of self.old }
        ensures made { made_of self.new ≡ made_of self.old }
        ensures header { IsHeaderRead (setup_of self.old) (pass_of self.old) (pass_of self.new) object result }
    {
        let Member { crew, hand } = self;
        hand.try_header(alloc, &crew.cells, object)
    }

    /// Writes `value` into a field of a kind that refers, and answers the stamp of the entry. The value must be null or
    /// the address of an object that the mutator knows; any other value is refused. Requires a
    /// kind that refers.
    #[inline(always)]
    pub fn try_write_referring(
        &mut self,
        alloc: Global,
        kind: Kind,
        object: u64,
        field: u32,
        value: u64,
    ) -> Result<u64, Refusal>
        requires of { IsMember self.old }
        requires refers { refers kind ≡ true }
        ensures of { IsMember self.new }
        ensures crew { crew_of self.new ≡ crew_of self.old }
        ensures made { made_of self.new ≡ made_of self.old }
        ensures write { IsWrite (setup_of self.old) (pass_of self.old) (pass_of self.new) kind object field value result }
    {
        let Member { crew, hand } = self;
        hand.try_write_referring(alloc, &crew.cells, kind, object, field, value)
    }

    /// Writes `value` into a data field, and answers the stamp of the entry.
    #[inline(always)]
    pub fn try_write_data_at(
        &mut self,
        alloc: Global,
        object: u64,
        field: u32,
        value: u64,
    ) -> Result<u64, Refusal>
        requires { IsMember self.old }
        ensures of { IsMember self.new }
        ensures crew { crew_of self.new ≡ crew_of self.old }
        ensures made { made_of self.new ≡ made_of self.old }
        ensures write { IsWrite (setup_of self.old) (pass_of self.old) (pass_of self.new) kinds.Data object field value result }
    {
        let Member { crew, hand } = self;
        hand.try_write_data_at(alloc, &crew.cells, object, field, value)
    }
}
