//! The command `next`.
ghost use Rattle.std.specs.Prelude.{◌≡◌, ◌≤◌, codes, false, is_some, map, true, IfOk, IfSome};
ghost use Rattle.std.specs.String.{string_bytes};
ghost use Rattle.clap.specs.Words.{app_of, first_value, found_of, new_app, one_text, with_rule, App};
ghost use Rattle.command_line.specs.AskedTasks.{IsCount};
ghost use Rattle.command_line.specs.Forms.{named, next_form, workers};
ghost use Rattle.command_line.specs.Given.{Takes};
ghost use Rattle.command_line.specs.NextArguments.{says_reachable, AreMarksFound, AreWorkersFound, HasNext, IsNextFound};
ghost use Rattle.command_line.specs.Parser.{command as command_of, rule, switch_rule};

use crate::arguments::{
    Made, fresh_option, image_argument, large_switch, mutators_option, named_command, new_argument,
    path_argument, reachable_switch, roots_option, trace_argument, with_argument, workers_option,
};
use crate::values::{
    DEFAULT_FRESH, DEFAULT_MUTATORS, DEFAULT_WORKERS, count_of, is_large, text_of,
};
use clap::{Arg, ArgMatches};
use std::alloc::Global;

// How `next` is called: with the marks, or marked by its roots.
const USAGE: &str = "compressor next [OPTIONS] <IMAGE> <TRACE> <MARKS> <NEW>
       compressor next [OPTIONS] --reachable [--roots <ROOTS>] [--workers <N>] <IMAGE> <TRACE> <NEW>";

/// How the next heap is marked.
#[derive(Debug, Drop)]
pub enum NextMarks<'a> {
    /// By the marks in the file at this path.
    Given(&'a str),
    /// By what its roots reach, which stay.
    Reachable,
    /// By what the roots reach that the file at this path names. They are the roots of the next heap.
    ReachableFrom(&'a str),
}

/// The arguments of `next`.
#[derive(Debug, Drop)]
pub struct NextRun<'a> {
    /// The path of the heap's image.
    pub image: &'a str,
    /// The path of the trace.
    pub trace: &'a str,
    /// The marks of the next cycle.
    pub marks: NextMarks<'a>,
    /// The path to which the new image is written.
    pub new: &'a str,
    /// The number of mutators, 1 to 64.
    pub mutators: u8,
    /// The number of fresh pages, at most 4,096.
    pub fresh: u32,
    /// The number of workers that mark what is reached, 1 to 64. It is 1 if the marks are given.
    pub workers: u8,
    /// Whether heaps of editions three and four are read as well.
    pub large: bool,
}

/// Whether a word before the first `--` is `--reachable`. No option takes that word as its text.
pub(crate) fn says_reachable(words: &[String]) -> bool
    ensures { result ≡ says_reachable (map string_bytes words.now) }
{
    for word in words {
        if word.as_str() == "--" {
            return false;
        }
        if word.as_str() == "--reachable" {
            return true;
        }
    }
    false
}

// The marks, or the roots that mark, in what the parser found.
fn marks_of<'a>(found: &ArgMatches<'a>, reaches: bool) -> NextMarks<'a>
    requires { reaches ≡ false → is_some (first_value (found_of found.now) (codes "MARKS")) ≡ true }
    ensures { AreMarksFound reaches (found_of found.now) result }
{
    if reaches {
        match found.get_str("roots") {
            Some(path) => NextMarks::ReachableFrom(path),
            None => NextMarks::Reachable,
        }
    } else {
        NextMarks::Given(text_of(found, "MARKS"))
    }
}

// The number of workers in what the parser found.
fn workers_of(found: &ArgMatches, reaches: bool) -> u8
    requires { reaches ≡ true → IfSome (one_text (found_of found.now) (codes "workers")) (Takes workers.takes) }
    ensures found { AreWorkersFound reaches (found_of found.now) result }
    ensures within { IsCount result }
{
    if reaches {
        count_of(found, "workers", DEFAULT_WORKERS) as u8
    } else {
        1
    }
}

/// The arguments of `next` in what the parser found, with `--reachable` or without it.
pub(crate) fn next_run<'a>(found: &ArgMatches<'a>, reaches: bool) -> NextRun<'a>
    requires { HasNext reaches (found_of found.now) }
    ensures run { IsNextFound reaches (found_of found.now) result }
    ensures counts { IsCount result.mutators × (result.fresh ≤ 4096) × IsCount result.workers }
{
    NextRun {
        image: text_of(found, "IMAGE"),
        trace: text_of(found, "TRACE"),
        marks: marks_of(found, reaches),
        new: text_of(found, "NEW"),
        mutators: count_of(found, "mutators", DEFAULT_MUTATORS) as u8,
        fresh: count_of(found, "fresh", DEFAULT_FRESH) as u32,
        workers: workers_of(found, reaches),
        large: is_large(found),
    }
}

/// The command `next`, as defined for clap, with `--reachable` or without it.
pub(crate) fn next_command<'a>(alloc: Global, reaches: bool) -> Made<'a>
    ensures { IfOk result (λ made. app_of made ≡ command_of (next_form reaches)) }
{
    let of_mutators = with_argument(bare_next(alloc), mutators_option(alloc));
    let of_counts = with_argument(of_mutators, fresh_option(alloc));
    if reaches {
        let of_roots = with_argument(of_counts, roots_option(alloc));
        let of_workers = with_argument(of_roots, workers_option(alloc));
        let of_inputs = with_inputs(alloc, of_workers);
        with_argument(of_inputs, new_argument(alloc))
    } else {
        let of_inputs = with_inputs(alloc, of_counts);
        let of_marks = with_argument(of_inputs, path_argument(alloc, "MARKS", "The new marks"));
        with_argument(of_marks, new_argument(alloc))
    }
}

// The command `next` without arguments. Its help and its mistakes show both of its forms.
fn bare_next<'a>(alloc: Global) -> Made<'a>
    ensures { IfOk result (λ made. app_of made ≡ new_app (codes "next")) }
{
    let next = named_command(
        alloc,
        "next",
        "Runs a trace as replay does, marks the heap anew, and writes the new image",
    );
    Ok(next?.override_usage(USAGE))
}

// Adds the switches of `next`, and the two arguments that both of its forms have.
fn with_inputs<'a>(alloc: Global, command: Made<'a>) -> Made<'a>
    ensures { (app : App) → IfOk command.entry (λ made. app_of made ≡ app) → IfOk result (λ made. app_of made ≡ with_rule (with_rule (with_rule (with_rule app (switch_rule (named (codes "large")))) (switch_rule (named (codes "reachable"))))
        (rule (named (codes "IMAGE")))) (rule (named (codes "TRACE")))) }
{
    let of_large = with_argument(command, large_switch(alloc));
    let of_switches = with_argument(of_large, reachable_switch(alloc));
    let of_image = with_argument(of_switches, image_argument(alloc));
    with_argument(of_image, trace_argument(alloc))
}
