//! The values that the parser found for a command.
ghost use Rattle.std.specs.Prelude.{◌≡◌, ℕ, true, codes, is_some, Some, IsSomeAnd, IfSome};
ghost use Rattle.clap.specs.Words.{first_value, found_of, one_text};
ghost use Rattle.command_line.specs.Given.{IsNumber, IsNumberOr};
ghost use Rattle.command_line.specs.ParserFinds.{IsFlag};

use clap::ArgMatches;

/// The number of mutators, if the words give none.
pub(crate) const DEFAULT_MUTATORS: u64 = 2;

/// The number of fresh pages, if the words give none.
pub(crate) const DEFAULT_FRESH: u64 = 64;

/// The number of workers, if the words give none.
pub(crate) const DEFAULT_WORKERS: u64 = 2;

/// The text of an argument that was found.
pub(crate) fn text_of<'a>(found: &ArgMatches<'a>, id: &str) -> &'a str
    requires { is_some (first_value (found_of found.now) id.now) ≡ true }
    ensures { Some result.now ≡ first_value (found_of found.now) id.now }
{
    match found.get_str(id) {
        Some(text) => text,
        None => unreachable!(),
    }
}

/// The number of an argument that was found.
pub(crate) fn number_of(found: &ArgMatches, id: &str) -> u64
    requires { IsSomeAnd (one_text (found_of found.now) id.now) (λ text. (number : ℕ) × IsNumber text number) }
    ensures { IfSome (one_text (found_of found.now) id.now) (λ text. IsNumber text result) }
{
    match found.get_one::<u64>(id) {
        Some(number) => number,
        None => unreachable!(),
    }
}

/// The number of an option, or its default if it was left out.
pub(crate) fn count_of(found: &ArgMatches, id: &str, default: u64) -> u64
    requires { IfSome (one_text (found_of found.now) id.now) (λ text. (number : ℕ) × IsNumber text number) }
    ensures { IsNumberOr default (one_text (found_of found.now) id.now) result }
{
    match found.get_one::<u64>(id) {
        Some(count) => count,
        None => default,
    }
}

/// Whether the switch `--large` was given.
pub(crate) fn is_large(found: &ArgMatches) -> bool
    ensures { IsFlag (one_text (found_of found.now) (codes "large")) result }
{
    is_given(found, "large")
}

/// Whether this switch was given.
pub(crate) fn is_given(found: &ArgMatches, id: &str) -> bool
    ensures { IsFlag (one_text (found_of found.now) id.now) result }
{
    found.get_flag(id)
}
