//! The collector for C: one export for each call of comp_handle that C makes, by the kind of what it acts on.
//! include/compressor.h of this crate declares them.
//!
//! The modules, in the order in which to read them:
//!
//! - `heap`, `plan`: marked heaps and their plans.
//! - `crew`, `mutator`, `end`: a flipped heap, up to its finished cycle.
//! - `rest`, `young`, `growing`: heaps at rest, their young collections, and surveys that grow.
//! - `job`, `marking`, `looks`, `lane`: how they are marked by several threads, or while threads go on.
//! - `pages`: their slide by first touch.
#![tactic(auto)]

mod crew;
mod end;
mod growing;
mod heap;
mod job;
mod lane;
mod looks;
mod marking;
mod mutator;
mod pages;
mod plan;
mod rest;
mod young;

ghost use Rattle.std.specs.Prelude.{◌≡◌};

/// The version of the library: major * 1,000,000 + minor * 1,000 + patch.
#[unsafe(no_mangle)]
pub extern "C" fn compressor_version() -> u32
    ensures { result ≡ 1000000 }
{
    1000000
}
