//! The command `audit`.
ghost use Rattle.std.specs.Prelude.{◌≡◌, IfOk};
ghost use Rattle.clap.specs.Words.{app_of, found_of};
ghost use Rattle.command_line.specs.ParserFinds.{IsAuditFound, IsAuditRequest};
ghost use Rattle.command_line.specs.Forms.{audit_form};
ghost use Rattle.command_line.specs.Parser.{command as command_of};

use crate::arguments::{
    Made, image_argument, large_switch, named_command, path_argument, switch_of, with_argument,
};
use crate::values::{is_given, is_large, text_of};
use clap::ArgMatches;
use std::alloc::Global;

/// The arguments of `audit`.
#[derive(Debug, Drop)]
pub struct AuditRun<'a> {
    /// The path of the heap's image.
    pub image: &'a str,
    /// The path of the dump, or of the words and roots.
    pub dump: &'a str,
    /// Whether each compacted page must be built too.
    pub whole: bool,
    /// Whether `dump` is the path of a file of words and roots, without pages and journals.
    pub words: bool,
    /// Whether what was compared is printed, and what is wrong where.
    pub explain: bool,
    /// Whether heaps of editions three and four are read as well.
    pub large: bool,
}

/// The arguments of `audit` in what the parser found.
pub(crate) fn audit_run<'a>(found: &ArgMatches<'a>) -> AuditRun<'a>
    requires { IsAuditRequest (found_of found.now) }
    ensures { IsAuditFound (found_of found.now) result }
{
    AuditRun {
        image: text_of(found, "IMAGE"),
        dump: text_of(found, "DUMP"),
        whole: is_given(found, "whole"),
        words: is_given(found, "words"),
        explain: is_given(found, "explain"),
        large: is_large(found),
    }
}

/// The command `audit`, as defined for clap.
pub(crate) fn audit_command<'a>(alloc: Global) -> Made<'a>
    ensures { IfOk result (λ made. app_of made ≡ command_of audit_form) }
{
    let audit = named_command(alloc, "audit", "Judges the dump of a compaction of a heap");
    let of_large = with_argument(audit, large_switch(alloc));
    let whole = switch_of(
        alloc,
        "whole",
        "Also asks that each compacted page is built",
    );
    let of_whole = with_argument(of_large, whole);
    let words = switch_of(
        alloc,
        "words",
        "DUMP is a file of words and roots, without pages and journals",
    );
    let of_words = with_argument(of_whole, words);
    let explain = switch_of(
        alloc,
        "explain",
        "Prints what was compared, and what is wrong where",
    );
    let of_switches = with_argument(of_words, explain);
    let of_image = with_argument(of_switches, image_argument(alloc));
    with_argument(of_image, path_argument(alloc, "DUMP", "The dump"))
}
