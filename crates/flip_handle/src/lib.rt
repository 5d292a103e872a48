//! The life of a heap whose threads go on, from handle to handle.
//!
//! The modules, in the order in which to read them:
//!
//! - `turning`, `planning`: the life of a heap from handle to handle, and its plan.
//! - `crewing`, `joining`, `calling`, `seeing`: a crew, its mutators, and their calls.
//! - `facts`, `ending`, `settling`: counts, and what is asked of a finished cycle.
#![tactic(auto)]

mod calling;
mod crewing;
mod ending;
mod facts;
mod joining;
mod planning;
mod seeing;
mod settling;
mod turning;

pub use calling::{Call, make_call};
pub use crewing::{flip_crew, take_member};
pub use ending::{Question, Written, ask, page_entry, page_words};
pub use facts::{
    EndFacts, HeapFacts, MutatorFacts, PlanFacts, end_facts, heap_facts, mutator_facts, plan_facts,
};
pub use joining::{give_member, meet_members};
pub use planning::{forward_plan, plan_page, share_plan};
pub use seeing::seen_page;
pub use settling::rest_end;
pub use turning::{drop_kept, finish_crew, follow, follow_reached, plan_heap};
