//! The lists of builds: which of them name a page.
ghost use Rattle.std.specs.Prelude.{◌≡◌, ◌*◌, ◌^◌, ◌<◌, ◌≤◌, All, Option, is_some, length};
ghost use Rattle.heap_layout.specs.Heap.{Heap};
ghost use Rattle.comp_dump.specs.CellEnds.{lists as items_of};
ghost use Rattle.comp_dump.specs.Builds.{named};
ghost use Rattle.comp_dump.specs.Lists.{times};
ghost use Rattle.comp_dump.specs.declared.fault.AuditFault.TheVariants as fault;
ghost use Rattle.comp_dump.specs.Dumped.{BuiltPage};
ghost use Rattle.comp_audit.specs.Meant.{built_count};
ghost use Rattle.comp_audit.specs.Explained.{AreNamings, Explains};

use crate::explanation::{Claims, Explanation, MissingPage};
use comp_dump::Dump;
use page_plan::Plan;

/// What is said of a page that was built, if the lists of builds do not name it once; or that was not, if they name it.
pub fn explain_claims(dump: &Dump<'_>, p: u64) -> Explanation
    ensures { (heap : Heap) → Explains heap dump.now (fault.BuildUnclaimed p) result }
{
    comp_dump::dump_is_stored(dump);
    let is_built = dump.pages().page(p as usize).is_some();
    let named = named_in(dump.builds(), p);
    if p >= dump.pages().len() as u64 || named == once_if(is_built) {
        return Explanation::NoSuchFault;
    }
    let by = named_by(dump.builds(), p);
    Explanation::BuildUnclaimed(Claims {
        page: p,
        is_built,
        named,
        by,
    })
}

// How often a page is to be named: once if it was built, else never.
fn once_if(is_built: bool) -> u64
    ensures { (slot : Option BuiltPage) → is_built ≡ is_some slot → result ≡ built_count slot }
{
    if is_built { 1 } else { 0 }
}

/// What is said of a compacted page that was never built.
pub fn explain_missing_page(plan: &Plan, dump: &Dump<'_>, p: u64) -> Explanation
    ensures { Explains plan.now dump.now (fault.PageMissing p) result }
{
    if p >= plan.pages() {
        return Explanation::NoSuchFault;
    }
    match dump.pages().page(p as usize) {
        Some(_) => Explanation::NoSuchFault,
        None => Explanation::PageMissing(MissingPage {
            page: p,
            compacted: plan.pages(),
        }),
    }
}

// How often each of these lists names page `p`; 0 past the last list.
fn named_by(builds: &[Vec<u32>], p: u64) -> [u32; 64]
    requires lists { length builds.now ≤ 64 }
    requires few { All (λ list. length list < 2 ^ 32) (items_of builds.now) }
    ensures { AreNamings (items_of builds.now) p result }
{
    let mut by = [0; 64];
    for (number, list) in builds.iter().enumerate() {
        by[number] = times_in(list, p);
    }
    by
}

// How often these lists name page `p`.
fn named_in(builds: &[Vec<u32>], p: u64) -> u64
    requires lists { length builds.now ≤ 64 }
    requires few { All (λ list. length list < 2 ^ 32) (items_of builds.now) }
    ensures { result ≡ named p (items_of builds.now) }
{
    let mut named = 0;
    for list in builds {
        named += u64::from(times_in(list, p));
    }
    named
}

// How often a list names page `p`.
fn times_in(list: &[u32], p: u64) -> u32
    requires { length list.now < 2 ^ 32 }
    ensures times { result ≡ times p list.now }
    ensures few { result ≤ length list.now }
{
    let mut times = 0;
    for &q in list {
        if u64::from(q) == p {
            times += 1;
        }
    }
    times
}
