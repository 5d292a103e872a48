//! The options and arguments of the commands.
ghost use Rattle.std.specs.Prelude.{◌≡◌, false, codes, IfOk};
ghost use Rattle.clap.specs.Words.{app_of, new_app, rule_of, with_rule, App, Rule};
ghost use Rattle.command_line.specs.Forms.{fresh, mutators, named, number_within, path_option, workers};
ghost use Rattle.command_line.specs.Parser.{option_rule, optional_rule, rule, switch_rule};

use clap::builder::ValueParser;
use clap::{Arg, ArgAction, Command, value_parser};
use std::alloc::{AllocError, Global};

/// A command, or out of memory.
pub(crate) type Made<'a> = Result<Command<'a>, AllocError>;

/// A command of this name, with this line of help, without arguments.
pub(crate) fn named_command<'a>(alloc: Global, name: &'a str, about: &'a str) -> Made<'a>
    ensures { IfOk result (λ made. app_of made ≡ new_app name.entry.now) }
{
    Ok(Command::new(alloc, name).about(about))
}

/// Adds an argument to the command.
pub(crate) fn with_argument<'a>(command: Made<'a>, argument: Arg<'a>) -> Made<'a>
    ensures { (app : App) (rule : Rule) → IfOk command.entry (λ made. app_of made ≡ app) → rule_of argument.entry ≡ rule → argument.entry.global ≡ false
        → IfOk result (λ made. app_of made ≡ with_rule app rule) }
{
    command?.arg(argument)
}

/// The option `--mutators`, which takes a number from 1 to 64.
pub(crate) fn mutators_option<'a>(alloc: Global) -> Arg<'a>
    ensures rule { rule_of result ≡ option_rule mutators }
    ensures local { result.global ≡ false }
{
    number_option(
        alloc,
        "mutators",
        1,
        64,
        "How many mutators there are, 1 to 64 (2 by default)",
    )
}

/// The option `--fresh`, which takes a number from 0 to 4,096.
pub(crate) fn fresh_option<'a>(alloc: Global) -> Arg<'a>
    ensures rule { rule_of result ≡ option_rule fresh }
    ensures local { result.global ≡ false }
{
    number_option(
        alloc,
        "fresh",
        0,
        4096,
        "How many fresh pages there are, 0 to 4096 (64 by default)",
    )
}

/// The option `--workers`, which takes a number from 1 to 64.
pub(crate) fn workers_option<'a>(alloc: Global) -> Arg<'a>
    ensures rule { rule_of result ≡ option_rule workers }
    ensures local { result.global ≡ false }
{
    number_option(
        alloc,
        "workers",
        1,
        64,
        "How many workers slide or mark objects, 1 to 64 (2 by default)",
    )
}

/// The option `--roots`, which takes a path.
pub(crate) fn roots_option<'a>(alloc: Global) -> Arg<'a>
    ensures rule { rule_of result ≡ option_rule (path_option (codes "roots")) }
    ensures local { result.global ≡ false }
{
    Arg::new(alloc, "roots")
        .long("roots")
        .value_name("ROOTS")
        .help("The roots of the new heap, which stay by default")
}

/// The option `--dump`, which takes a path.
pub(crate) fn dump_option<'a>(alloc: Global) -> Arg<'a>
    ensures rule { rule_of result ≡ option_rule (path_option (codes "dump")) }
    ensures local { result.global ≡ false }
{
    Arg::new(alloc, "dump")
        .long("dump")
        .value_name("DUMP")
        .help("The dump that is drawn too")
}

// An option of this name and help that takes a number from `low` to `high`.
fn number_option<'a>(alloc: Global, name: &'a str, low: u64, high: u64, help: &'a str) -> Arg<'a>
    ensures rule { rule_of result ≡ optional_rule (number_within name.entry.now low high) }
    ensures local { result.global ≡ false }
{
    Arg::new(alloc, name)
        .long(name)
        .value_name("N")
        .value_parser(ValueParser::unsigned(low, high))
        .help(help)
}

/// The switch `--large`, which takes no value.
pub(crate) fn large_switch<'a>(alloc: Global) -> Arg<'a>
    ensures rule { rule_of result ≡ switch_rule (named (codes "large")) }
    ensures local { result.global ≡ false }
{
    switch_of(
        alloc,
        "large",
        "Reads heaps of editions three and four as well, of up to 2^31 words",
    )
}

/// The switch `--reachable`, which takes no value.
pub(crate) fn reachable_switch<'a>(alloc: Global) -> Arg<'a>
    ensures rule { rule_of result ≡ switch_rule (named (codes "reachable")) }
    ensures local { result.global ≡ false }
{
    switch_of(
        alloc,
        "reachable",
        "Marks the new heap by what its roots reach; then no MARKS is given",
    )
}

/// A switch of this name and help, which takes no value.
pub(crate) fn switch_of<'a>(alloc: Global, name: &'a str, help: &'a str) -> Arg<'a>
    ensures rule { rule_of result ≡ switch_rule (named name.entry.now) }
    ensures local { result.global ≡ false }
{
    Arg::new(alloc, name)
        .long(name)
        .action(ArgAction::SetTrue)
        .help(help)
}

/// The argument `IMAGE`, a path.
pub(crate) fn image_argument<'a>(alloc: Global) -> Arg<'a>
    ensures rule { rule_of result ≡ rule (named (codes "IMAGE")) }
    ensures local { result.global ≡ false }
{
    path_argument(alloc, "IMAGE", "The heap's image")
}

/// The argument `INDEX`, a number of 64 bits.
pub(crate) fn index_argument<'a>(alloc: Global) -> Arg<'a>
    ensures rule { rule_of result ≡ rule (number_within (codes "INDEX") 0 18446744073709551615) }
    ensures local { result.global ≡ false }
{
    Arg::new(alloc, "INDEX")
        .required(true)
        .value_parser(value_parser!(u64))
        .help("The word's index, from 0")
}

/// The argument `TRACE`, a path.
pub(crate) fn trace_argument<'a>(alloc: Global) -> Arg<'a>
    ensures rule { rule_of result ≡ rule (named (codes "TRACE")) }
    ensures local { result.global ≡ false }
{
    path_argument(alloc, "TRACE", "The trace")
}

/// The argument `DUMP`, a path.
pub(crate) fn dump_argument<'a>(alloc: Global) -> Arg<'a>
    ensures rule { rule_of result ≡ rule (named (codes "DUMP")) }
    ensures local { result.global ≡ false }
{
    path_argument(alloc, "DUMP", "Where the dump is written")
}

/// The argument `NEW`, a path.
pub(crate) fn new_argument<'a>(alloc: Global) -> Arg<'a>
    ensures rule { rule_of result ≡ rule (named (codes "NEW")) }
    ensures local { result.global ≡ false }
{
    path_argument(alloc, "NEW", "Where the new image is written")
}

/// An argument of this name and help, a path.
pub(crate) fn path_argument<'a>(alloc: Global, name: &'a str, help: &'a str) -> Arg<'a>
    ensures rule { rule_of result ≡ rule (named name.entry.now) }
    ensures local { result.global ≡ false }
{
    Arg::new(alloc, name).required(true).help(help)
}
