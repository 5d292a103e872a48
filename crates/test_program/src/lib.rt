//! The words of a line and the task that they ask for, and runs of the program: output, standard error, files and
//! refusals, also with an output that takes a limited number of bytes, with expected values from outside.
//!
//! The modules, by what they try:
//!
//! - `asked_tasks`, `misused_words`: words and tasks.
//! - `taken_steps`, `all_runs`: how the tables of runs are run.
//! - `word_plan_and_compact_runs`, `collect_runs`, `mark_runs`, `moved_runs`, `map_runs`, `audit_runs`,
//!   `whole_and_words_audits`, `replay_runs`, `race_runs`, `next_runs`, `reachable_runs`: runs by command.
//! - `edition_two_runs`, `edition_three_runs`, `edition_four_runs`: runs by edition.
//! - `begun_runs`, `narrow_outputs`: how runs begin, and outputs that fail.
#![tactic(auto)]

#[cfg(test)]
mod all_runs;
#[cfg(test)]
mod asked_tasks;
#[cfg(test)]
mod audit_runs;
#[cfg(test)]
mod begun_runs;
#[cfg(test)]
mod collect_runs;
#[cfg(test)]
mod edition_four_runs;
#[cfg(test)]
mod edition_three_runs;
#[cfg(test)]
mod edition_two_runs;
#[cfg(test)]
mod map_runs;
#[cfg(test)]
mod mark_runs;
#[cfg(test)]
mod misused_words;
#[cfg(test)]
mod moved_runs;
#[cfg(test)]
mod narrow_outputs;
#[cfg(test)]
mod next_runs;
#[cfg(test)]
mod race_runs;
#[cfg(test)]
mod reachable_runs;
#[cfg(test)]
mod replay_runs;
#[cfg(test)]
mod taken_steps;
#[cfg(test)]
mod whole_and_words_audits;
#[cfg(test)]
mod word_plan_and_compact_runs;
