//! The calls of a mutator on data fields of any number. Some retry while the page is busy; it is not promised that
//! those return.
ghost use Rattle.std.specs.Prelude.{◌≡◌};
ghost use Rattle.heap_layout.specs.declared.kind.Kind.TheVariants as kinds;
ghost use Rattle.comp_mutator.specs.Mutators.{pass_of, setup_of, unposted_of, IsMutatorOf};
ghost use Rattle.comp_access.specs.Reads.{IsNeverBusy};
ghost use Rattle.comp_access.specs.ReadCalls.{IsRead};
ghost use Rattle.comp_access.specs.WriteCalls.{IsWrite};

use crate::mutator::Mutator;
use crate::retried;
use crate::space::Space;
use comp_access::Refusal;
use page_plan::Builder;
use std::alloc::Global;
use std::sync::Wait;
use std::sync::ledger::Ledger as Named;

impl<L: Named, B: Builder> Space<L, B> {
    /// Reads a data field, whatever its number: `try_read_data` names the first 65,536 fields of an object. Requires a
    /// mutator of this space.
    pub fn try_read_data_at(
        &self,
        alloc: Global,
        m: &mut Mutator<L>,
        object: u64,
        field: u32,
    ) -> Result<u64, Refusal>
        requires { IsMutatorOf self.now m.old }
        ensures of { IsMutatorOf self.now m.new }
        ensures unposted { unposted_of m.new ≡ unposted_of m.old }
        ensures read { IsRead (setup_of self.now) (pass_of m.old) (pass_of m.new) kinds.Data object field result }
    {
        let Mutator { hand, share: _ } = m;
        hand.try_read_data_at(alloc, &self.cells, object, field)
    }

    /// Like `try_read_data_at`, but retries while the page is busy. The requirements are the same.
    pub fn read_data_at(
        &self,
        alloc: Global,
        rt: &impl Wait,
        m: &mut Mutator<L>,
        object: u64,
        field: u32,
    ) -> Result<u64, Refusal>
        requires { IsMutatorOf self.now m.old }
        ensures of { IsMutatorOf self.now m.new }
        ensures unposted { unposted_of m.new ≡ unposted_of m.old }
        ensures read { IsRead (setup_of self.now) (pass_of m.old) (pass_of m.new) kinds.Data object field result }
        ensures busy { IsNeverBusy result }
    {
        retried!(rt, self.try_read_data_at(alloc, m, object, field))
    }

    /// Writes `value` into a data field, whatever its number, and answers the stamp of the entry: `try_write_data`
    /// names the first 65,536 fields of an object. Requires a mutator of this space.
    pub fn try_write_data_at(
        &self,
        alloc: Global,
        m: &mut Mutator<L>,
        object: u64,
        field: u32,
        value: u64,
    ) -> Result<u64, Refusal>
        requires { IsMutatorOf self.now m.old }
        ensures of { IsMutatorOf self.now m.new }
        ensures unposted { unposted_of m.new ≡ unposted_of m.old }
        ensures write { IsWrite (setup_of self.now) (pass_of m.old) (pass_of m.new) kinds.Data object field value result }
    {
        let Mutator { hand, share: _ } = m;
        hand.try_write_data_at(alloc, &self.cells, object, field, value)
    }

    /// Like `try_write_data_at`, but retries while the page is busy. The requirements are the same.
    pub fn write_data_at(
        &self,
        alloc: Global,
        rt: &impl Wait,
        m: &mut Mutator<L>,
        object: u64,
        field: u32,
        value: u64,
    ) -> Result<u64, Refusal>
        requires { IsMutatorOf self.now m.old }
        ensures of { IsMutatorOf self.now m.new }
        ensures unposted { unposted_of m.new ≡ unposted_of m.old }
        ensures write { IsWrite (setup_of self.now) (pass_of m.old) (pass_of m.new) kinds.Data object field value result }
        ensures busy { IsNeverBusy result }
    {
        retried!(rt, self.try_write_data_at(alloc, m, object, field, value))
    }
}
