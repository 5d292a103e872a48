//! The ledger: the count of live words. Each thread that makes objects has a share, and posts the words of its objects
//! with it.
#![tactic(auto)]

mod fault;
mod gathering;
mod ledger;
mod posted;
mod share;

pub use fault::LedgerFault;
pub use ledger::{Ledger, NotGathered};
pub use share::Share;
