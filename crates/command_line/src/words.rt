//! The words of the command line.
ghost use Rattle.std.specs.Prelude.{◌≡◌, ◌≢◌, ◌≤◌, ◌⊎◌, [], codes, true, false, map, IfOk, IfErr};
ghost use Rattle.std.specs.String.{string_bytes};
ghost use Rattle.clap.specs.Words.{app_of, fault_of, found_of, kind_of, subcommand_of, subcommand_rows_of, with_subcommand, App};
ghost use Rattle.clap.specs.declared.error.kind.ErrorKind.TheVariants.{DisplayHelp, DisplayVersion, OutOfMemory};
ghost use Rattle.command_line.specs.AskedTasks.{Asks, AsksNoCommand, HasLawfulCounts, IsCount, is_long};
ghost use Rattle.command_line.specs.Forms.{moved_form, plan_form, run_form, workers_form, word_form};
ghost use Rattle.command_line.specs.ParserFinds.{IsAnswerOf, IsRunFound, IsRunRequest};
ghost use Rattle.command_line.specs.NextArguments.{says_reachable};
ghost use Rattle.command_line.specs.Parser.{bare_program, command as command_of, program, standing};

use crate::arguments::{
    Made, dump_argument, fresh_option, image_argument, index_argument, large_switch,
    mutators_option, named_command, new_argument, path_argument, trace_argument, with_argument,
    workers_option,
};
use crate::audit::{AuditRun, audit_command, audit_run};
use crate::mapping::{MapRun, map_command, map_run};
use crate::next::{NextRun, next_command, next_run, says_reachable};
use crate::values::{
    DEFAULT_FRESH, DEFAULT_MUTATORS, DEFAULT_WORKERS, count_of, is_large, number_of, text_of,
};
use clap::error::ErrorKind;
use clap::{ArgMatches, Command, Error};
use std::alloc::Global;

/// What the words ask for.
#[derive(Debug, Drop)]
pub enum Task<'a> {
    /// Print the plan of the heap in an image.
    Plan {
        image: &'a str,
        /// Whether heaps of editions three and four are read as well.
        large: bool,
    },
    /// Print the slid word at an index, of the heap in an image.
    Word {
        image: &'a str,
        index: u64,
        /// Whether heaps of editions three and four are read as well.
        large: bool,
    },
    /// Run all lines of a trace in one thread, in their order.
    Replay(TraceRun<'a>),
    /// Run the lines of a trace, those of each mutator in a thread of its own.
    Race(TraceRun<'a>),
    /// Compact the heap in an image, with 1 to 64 workers, and write the dump to a path.
    Compact {
        image: &'a str,
        dump: &'a str,
        workers: u8,
        /// Whether heaps of editions three and four are read as well.
        large: bool,
    },
    /// Audit the dump at a path against the heap in an image.
    Audit(AuditRun<'a>),
    /// Run a trace as `replay` does, then make the next heap with the new marks, and write its image to a path.
    Next(NextRun<'a>),
    /// Mark the objects that the roots of the heap in an image reach, with 1 to 64 workers, and write the new image to
    /// a path.
    Mark {
        image: &'a str,
        new: &'a str,
        workers: u8,
        /// Whether heaps of editions three and four are read as well.
        large: bool,
    },
    /// Collect the heap in an image by its roots, with 1 to 64 workers, and write the new image to a path.
    Collect {
        image: &'a str,
        new: &'a str,
        workers: u8,
        /// Whether heaps of editions three and four are read as well.
        large: bool,
    },
    /// Judge what any moving collection left of the heap in an image.
    Moved {
        image: &'a str,
        moved: &'a str,
        /// Whether heaps of editions three and four are read as well.
        large: bool,
    },
    /// Draw the heap in an image before and after it is compacted, and write the picture to a path.
    Map(MapRun<'a>),
    /// Print this text of help.
    Help {
        text: String,
    },
    /// Print the version of the program.
    Version,
    /// Print the version of the program, of what it was made, and what proved it.
    VersionLong,
}

/// The arguments of `replay` and `race`.
#[derive(Debug, Drop)]
pub struct TraceRun<'a> {
    /// The path of the heap's image.
    pub image: &'a str,
    /// The path of the trace.
    pub trace: &'a str,
    /// The path to which the dump is written.
    pub dump: &'a str,
    /// The number of mutators, 1 to 64.
    pub mutators: u8,
    /// The number of fresh pages, at most 4,096.
    pub fresh: u32,
    /// Whether heaps of editions three and four are read as well.
    pub large: bool,
}

/// The program's name and version, as a line.
pub const VERSION_LINE: &str = "compressor 1.0.0\n";

// The version, as defined for clap. The line is the program's own, since nothing is promised of clap's text.
const VERSION: &str = "1.0.0";

/// Reads the words after the program's name, and answers the task that they ask for. It fails if they ask for none, or
/// if memory runs out.
pub fn read_task<'a>(alloc: Global, words: &'a [String]) -> Result<Task<'a>, Error>
    ensures asked { IfOk result (Asks (map string_bytes words.entry.now)) }
    ensures none { IfErr result (λ error. kind_of error ≢ OutOfMemory → AsksNoCommand (map string_bytes words.entry.now)) }
    ensures counts { IfOk result HasLawfulCounts }
    ensures no_help { IfErr result (λ error. kind_of error ≢ DisplayHelp) }
    ensures no_version { IfErr result (λ error. kind_of error ≢ DisplayVersion) }
{
    if asks_long(words) {
        Ok(Task::VersionLong)
    } else {
        parsed_task(alloc, words)
    }
}

// Whether the words are `--version --long`. clap has no answer for them.
fn asks_long(words: &[String]) -> bool
    ensures { result ≡ is_long (map string_bytes words.now) }
{
    match words {
        [first, second] => first.as_str() == "--version" && second.as_str() == "--long",
        _ => false,
    }
}

// The same of other words.
fn parsed_task<'a>(alloc: Global, words: &'a [String]) -> Result<Task<'a>, Error>
    requires others { is_long (map string_bytes words.now) ≡ false }
    ensures asked { IfOk result (Asks (map string_bytes words.entry.now)) }
    ensures none { IfErr result (λ error. kind_of error ≢ OutOfMemory → AsksNoCommand (map string_bytes words.entry.now)) }
    ensures counts { IfOk result HasLawfulCounts }
    ensures no_help { IfErr result (λ error. kind_of error ≢ DisplayHelp) }
    ensures no_version { IfErr result (λ error. kind_of error ≢ DisplayVersion) }
{
    // `next` with the switch has other paths, and clap has no path that depends on a switch
    let reaches = says_reachable(words);
    match command(alloc, reaches)?.try_get_matches_from(words) {
        Ok(matches) => Ok(task_of(words, &matches, reaches)),
        Err(error) => answer_task(alloc, error),
    }
}

// The task of the words in which the parser found this, with `--reachable` or without it.
fn task_of<'a>(words: &'a [String], matches: &ArgMatches<'a>, reaches: bool) -> Task<'a>
    requires reaches { reaches ≡ says_reachable (map string_bytes words.now) }
    requires taken { fault_of (program (standing reaches)) (map string_bytes words.now) ≡ [] }
    requires found { subcommand_rows_of matches.now ≡ subcommand_of (program (standing reaches)) (map string_bytes words.now) }
    ensures asked { Asks (map string_bytes words.entry.now) result }
    ensures counts { HasLawfulCounts result }
{
    let Some((name, found)) = matches.subcommand() else {
        unreachable!();
    };
    match name {
        "plan" => Task::Plan {
            image: text_of(found, "IMAGE"),
            large: is_large(found),
        },
        "word" => Task::Word {
            image: text_of(found, "IMAGE"),
            index: number_of(found, "INDEX"),
            large: is_large(found),
        },
        "replay" => Task::Replay(trace_run(found)),
        "race" => Task::Race(trace_run(found)),
        "compact" => Task::Compact {
            image: text_of(found, "IMAGE"),
            dump: text_of(found, "DUMP"),
            workers: count_of(found, "workers", DEFAULT_WORKERS) as u8,
            large: is_large(found),
        },
        "audit" => Task::Audit(audit_run(found)),
        "next" => Task::Next(next_run(found, reaches)),
        "mark" => {
            let marked = text_of(found, "NEW");
            let markers = count_of(found, "workers", DEFAULT_WORKERS) as u8;
            Task::Mark {
                image: text_of(found, "IMAGE"),
                new: marked,
                workers: markers,
                large: is_large(found),
            }
        }
        "collect" => {
            let new = text_of(found, "NEW");
            let workers = count_of(found, "workers", DEFAULT_WORKERS) as u8;
            Task::Collect {
                image: text_of(found, "IMAGE"),
                new,
                workers,
                large: is_large(found),
            }
        }
        "moved" => Task::Moved {
            image: text_of(found, "IMAGE"),
            moved: text_of(found, "MOVED"),
            large: is_large(found),
        },
        "map" => Task::Map(map_run(found)),
        _ => unreachable!(),
    }
}

// The arguments of `replay` or `race` in what the parser found.
fn trace_run<'a>(found: &ArgMatches<'a>) -> TraceRun<'a>
    requires { IsRunRequest (found_of found.now) }
    ensures run { IsRunFound (found_of found.now) result }
    ensures counts { IsCount result.mutators × (result.fresh ≤ 4096) }
{
    TraceRun {
        image: text_of(found, "IMAGE"),
        trace: text_of(found, "TRACE"),
        dump: text_of(found, "DUMP"),
        mutators: count_of(found, "mutators", DEFAULT_MUTATORS) as u8,
        fresh: count_of(found, "fresh", DEFAULT_FRESH) as u32,
        large: is_large(found),
    }
}

// If the parser answers with help or the version, the task that prints it; else its error.
fn answer_task<'a>(alloc: Global, error: Error) -> Result<Task<'a>, Error>
    ensures answer { IfOk result (IsAnswerOf (kind_of error)) }
    ensures error { IfErr result (λ reported. (kind_of reported ≡ OutOfMemory) ⊎ (kind_of reported ≡ kind_of error)) }
    ensures no_help { IfErr result (λ reported. kind_of reported ≢ DisplayHelp) }
    ensures no_version { IfErr result (λ reported. kind_of reported ≢ DisplayVersion) }
{
    match error.kind() {
        ErrorKind::DisplayHelp => Ok(Task::Help {
            text: error.to_string(alloc)?,
        }),
        ErrorKind::DisplayVersion => Ok(Task::Version),
        _ => Err(error),
    }
}

// The program with its commands, as defined for clap, for words with `--reachable` or for others.
fn command<'a>(alloc: Global, reaches: bool) -> Made<'a>
    ensures { IfOk result (λ made. app_of made ≡ program (standing reaches)) }
{
    let planning = with_command(bare_command(alloc), plan_command(alloc));
    let reading = with_command(planning, word_command(alloc));
    let replaying = with_command(reading, replay_command(alloc));
    let racing = with_command(replaying, race_command(alloc));
    let compacting = with_command(racing, compact_command(alloc));
    let auditing = with_command(compacting, audit_command(alloc));
    let running = with_command(auditing, next_command(alloc, reaches));
    let marking = with_command(running, mark_command(alloc));
    let collecting = with_command(marking, collect_command(alloc));
    let judging = with_command(collecting, moved_command(alloc));
    with_command(judging, map_command(alloc))
}

// Adds a command to the program.
fn with_command<'a>(program: Made<'a>, command: Made<'a>) -> Made<'a>
    ensures { (app added : App) → IfOk program.entry (λ made. app_of made ≡ app) → IfOk command.entry (λ made. app_of made ≡ added) → added.top.is_plain ≡ true
        → IfOk result (λ made. app_of made ≡ with_subcommand app added.top) }
{
    program?.subcommand(command?)
}

// The program without commands, as defined for clap.
fn bare_command<'a>(alloc: Global) -> Made<'a>
    ensures { IfOk result (λ made. app_of made ≡ bare_program) }
{
    Ok(
        Command::new(alloc, "compressor")
            .bin_name("compressor")?
            .about("Compacts marked heaps by sliding, page by page")
            .version(VERSION)
            .no_binary_name(true)
            .subcommand_required(true),
    )
}

// The command `plan`, as defined for clap.
fn plan_command<'a>(alloc: Global) -> Made<'a>
    ensures { IfOk result (λ made. app_of made ≡ command_of plan_form) }
{
    let plan = named_command(
        alloc,
        "plan",
        "Prints where the live objects of a heap slide",
    );
    let of_switch = with_argument(plan, large_switch(alloc));
    with_argument(of_switch, image_argument(alloc))
}

// The command `word`, as defined for clap.
fn word_command<'a>(alloc: Global) -> Made<'a>
    ensures { IfOk result (λ made. app_of made ≡ command_of word_form) }
{
    let word = named_command(alloc, "word", "Prints the to-space word at an index");
    let of_switch = with_argument(word, large_switch(alloc));
    let of_image = with_argument(of_switch, image_argument(alloc));
    with_argument(of_image, index_argument(alloc))
}

// The command `replay`, as defined for clap.
fn replay_command<'a>(alloc: Global) -> Made<'a>
    ensures { IfOk result (λ made. app_of made ≡ command_of (run_form (codes "replay"))) }
{
    run_command(
        alloc,
        "replay",
        "Runs a trace by one thread, in the order of its lines, and writes the dump",
    )
}

// The command `race`, as defined for clap.
fn race_command<'a>(alloc: Global) -> Made<'a>
    ensures { IfOk result (λ made. app_of made ≡ command_of (run_form (codes "race"))) }
{
    run_command(
        alloc,
        "race",
        "Runs a trace with a thread for each mutator, and writes the dump",
    )
}

// A command of this name that runs a trace, with this line of help, as defined for clap.
fn run_command<'a>(alloc: Global, name: &'a str, about: &'a str) -> Made<'a>
    ensures { IfOk result (λ made. app_of made ≡ command_of (run_form name.entry.now)) }
{
    let run = named_command(alloc, name, about);
    let of_mutators = with_argument(run, mutators_option(alloc));
    let of_counts = with_argument(of_mutators, fresh_option(alloc));
    let of_switch = with_argument(of_counts, large_switch(alloc));
    let of_image = with_argument(of_switch, image_argument(alloc));
    let of_trace = with_argument(of_image, trace_argument(alloc));
    with_argument(of_trace, dump_argument(alloc))
}

// The command `compact`, as defined for clap.
fn compact_command<'a>(alloc: Global) -> Made<'a>
    ensures { IfOk result (λ made. app_of made ≡ command_of (workers_form (codes "compact") (codes "DUMP"))) }
{
    let compact = named_command(
        alloc,
        "compact",
        "Compacts a heap by several workers, and writes its dump",
    );
    let of_workers = with_argument(compact, workers_option(alloc));
    let of_switch = with_argument(of_workers, large_switch(alloc));
    let of_image = with_argument(of_switch, image_argument(alloc));
    with_argument(of_image, dump_argument(alloc))
}

// The command `mark`, as defined for clap.
fn mark_command<'a>(alloc: Global) -> Made<'a>
    ensures { IfOk result (λ made. app_of made ≡ command_of (workers_form (codes "mark") (codes "NEW"))) }
{
    let mark = named_command(
        alloc,
        "mark",
        "Marks the objects that the roots reach, and writes the new image",
    );
    let of_workers = with_argument(mark, workers_option(alloc));
    let of_switch = with_argument(of_workers, large_switch(alloc));
    let of_image = with_argument(of_switch, image_argument(alloc));
    with_argument(of_image, new_argument(alloc))
}

// The command `collect`, as defined for clap.
fn collect_command<'a>(alloc: Global) -> Made<'a>
    ensures { IfOk result (λ made. app_of made ≡ command_of (workers_form (codes "collect") (codes "NEW"))) }
{
    let collect = named_command(
        alloc,
        "collect",
        "Collects a heap at rest by its roots, and writes the new image",
    );
    let of_workers = with_argument(collect, workers_option(alloc));
    let of_switch = with_argument(of_workers, large_switch(alloc));
    let of_image = with_argument(of_switch, image_argument(alloc));
    with_argument(of_image, new_argument(alloc))
}

// The command `moved`, as defined for clap.
fn moved_command<'a>(alloc: Global) -> Made<'a>
    ensures { IfOk result (λ made. app_of made ≡ command_of moved_form) }
{
    let moved = named_command(
        alloc,
        "moved",
        "Judges what any moving collection left of a heap",
    );
    let of_switch = with_argument(moved, large_switch(alloc));
    let of_image = with_argument(of_switch, image_argument(alloc));
    with_argument(of_image, path_argument(alloc, "MOVED", "The moved heap"))
}
