//! What all commands use: refusals, the files that are read and made, and printing.
//!
//! The modules, in the order in which to read them:
//!
//! - `refusal`, `wording`, `print`: refusals, their lines, and how all is printed.
//! - `flushed`, `parts`, `output_files`, `opening`, `keeping`: files that are read, written and kept.
//! - `texts`, `whole`, `reading`: how a file is read.
//! - `images`, `traces`, `marks`, `roots`, `program`: the files that are read, by their kind.
//! - `made`: the files that are made.
//! - `memory`: files in memory.
#![tactic(auto)]

mod flushed;
mod images;
mod keeping;
mod made;
mod marks;
mod memory;
mod opening;
mod output_files;
mod parts;
mod print;
mod program;
mod reading;
mod refusal;
mod roots;
mod texts;
mod traces;
mod whole;
mod wording;

pub use flushed::Flushed;
pub use images::{heap_at, parts_at};
pub use keeping::Unkept;
pub use made::{Made, write_to};
pub use marks::marks_at;
pub use memory::{MemoryFile, MemoryFiles, written_is_there};
pub use opening::{Files, RuntimeFiles};
pub use output_files::OutputFile;
pub use parts::{Part, Placed};
pub use print::{
    flush, print_bytes, print_digits, print_help, print_line, print_numbered, print_text,
};
pub use program::program_at;
pub use reading::end_reading;
pub use refusal::{CommandRefusal, Input, Output};
pub use roots::roots_at;
pub use traces::trace_at;
pub use wording::{Piece, print_refusal};
