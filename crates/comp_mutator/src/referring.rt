//! The calls of a mutator on fields of a kind that refers. Some retry while the page is busy; it is not promised that
//! those return.
ghost use Rattle.std.specs.Prelude.{◌≡◌, true};
ghost use Rattle.heap_layout.specs.Kinds.{refers};
ghost use Rattle.comp_mutator.specs.Mutators.{pass_of, setup_of, unposted_of, IsMutatorOf};
ghost use Rattle.comp_access.specs.Reads.{IsNeverBusy};
ghost use Rattle.comp_access.specs.ReadCalls.{IsRead};
ghost use Rattle.comp_access.specs.WriteCalls.{IsWrite};

use crate::mutator::Mutator;
use crate::retried;
use crate::space::Space;
use comp_access::Refusal;
use heap_layout::Kind;
use page_plan::Builder;
use std::alloc::Global;
use std::sync::Wait;
use std::sync::ledger::Ledger as Named;

impl<L: Named, B: Builder> Space<L, B> {
    /// Reads a field of a kind that refers. Answers null, or the address of an object that the mutator knows from then
    /// on. Requires a mutator of this space, and a kind that refers.
    pub fn try_read_referring(
        &self,
        alloc: Global,
        m: &mut Mutator<L>,
        kind: Kind,
        object: u64,
        field: u32,
    ) -> Result<u64, Refusal>
        requires of { IsMutatorOf self.now m.old }
        requires refers { refers kind ≡ true }
        ensures of { IsMutatorOf self.now m.new }
        ensures unposted { unposted_of m.new ≡ unposted_of m.old }
        ensures read { IsRead (setup_of self.now) (pass_of m.old) (pass_of m.new) kind object field result }
    {
        let Mutator { hand, share: _ } = m;
        hand.try_read_referring(alloc, &self.cells, kind, object, field)
    }

    /// Like `try_read_referring`, but retries while the page is busy. The requirements are the same.
    pub fn read_referring(
        &self,
        alloc: Global,
        rt: &impl Wait,
        m: &mut Mutator<L>,
        kind: Kind,
        object: u64,
        field: u32,
    ) -> Result<u64, Refusal>
        requires of { IsMutatorOf self.now m.old }
        requires refers { refers kind ≡ true }
        ensures of { IsMutatorOf self.now m.new }
        ensures unposted { unposted_of m.new ≡ unposted_of m.old }
        ensures read { IsRead (setup_of self.now) (pass_of m.old) (pass_of m.new) kind object field result }
        ensures busy { IsNeverBusy result }
    {
        retried!(rt, self.try_read_referring(alloc, m, kind, object, field))
    }

    /// Writes `value` into a field of a kind that refers, and answers the stamp of the entry. The value must be null or
    /// the address of an object that the mutator knows; any other value is refused. Requires a mutator of this space,
    /// and a kind that refers.
    pub fn try_write_referring(
        &self,
        alloc: Global,
        m: &mut Mutator<L>,
        kind: Kind,
        object: u64,
        field: u32,
        value: u64,
    ) -> Result<u64, Refusal>
        requires of { IsMutatorOf self.now m.old }
        requires refers { refers kind ≡ true }
        ensures of { IsMutatorOf self.now m.new }
        ensures unposted { unposted_of m.new ≡ unposted_of m.old }
        ensures write { IsWrite (setup_of self.now) (pass_of m.old) (pass_of m.new) kind object field value result }
    {
        let Mutator { hand, share: _ } = m;
        hand.try_write_referring(alloc, &self.cells, kind, object, field, value)
    }

    /// Like `try_write_referring`, but retries while the page is busy. The requirements are the same.
    pub fn write_referring(
        &self,
        alloc: Global,
        rt: &impl Wait,
        m: &mut Mutator<L>,
        kind: Kind,
        object: u64,
        field: u32,
        value: u64,
    ) -> Result<u64, Refusal>
        requires of { IsMutatorOf self.now m.old }
        requires refers { refers kind ≡ true }
        ensures of { IsMutatorOf self.now m.new }
        ensures unposted { unposted_of m.new ≡ unposted_of m.old }
        ensures write { IsWrite (setup_of self.now) (pass_of m.old) (pass_of m.new) kind object field value result }
        ensures busy { IsNeverBusy result }
    {
        retried!(
            rt,
            self.try_write_referring(alloc, m, kind, object, field, value)
        )
    }
}
