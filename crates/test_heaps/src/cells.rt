//! The pages of worked heaps, taken, written, built and closed through their cells by passes, by turns and in threads.

mod held_pages;
mod pass_calls;
mod passes_at_once;
mod taken_pages;
mod types_across_threads;
