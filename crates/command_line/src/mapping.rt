//! The command `map`.
ghost use Rattle.std.specs.Prelude.{◌≡◌, IfOk};
ghost use Rattle.clap.specs.Words.{app_of, found_of};
ghost use Rattle.command_line.specs.Forms.{map_form};
ghost use Rattle.command_line.specs.Parser.{command as command_of};
ghost use Rattle.command_line.specs.ParserFinds.{IsMapFound, IsMapRequest};

use crate::arguments::{
    Made, dump_option, image_argument, large_switch, named_command, path_argument, with_argument,
};
use crate::values::{is_large, text_of};
use clap::ArgMatches;
use std::alloc::Global;

/// The arguments of `map`.
#[derive(Debug, Drop)]
pub struct MapRun<'a> {
    /// The path of the heap's image.
    pub image: &'a str,
    /// The path of the dump that is drawn too, if there is one.
    pub dump: Option<&'a str>,
    /// The path to which the picture is written.
    pub out: &'a str,
    /// Whether heaps of editions three and four are read as well.
    pub large: bool,
}

/// The arguments of `map` in what the parser found.
pub(crate) fn map_run<'a>(found: &ArgMatches<'a>) -> MapRun<'a>
    requires { IsMapRequest (found_of found.now) }
    ensures { IsMapFound (found_of found.now) result }
{
    MapRun {
        image: text_of(found, "IMAGE"),
        dump: found.get_str("dump"),
        out: text_of(found, "OUT"),
        large: is_large(found),
    }
}

/// The command `map`, as defined for clap.
pub(crate) fn map_command<'a>(alloc: Global) -> Made<'a>
    ensures { IfOk result (λ made. app_of made ≡ command_of map_form) }
{
    let map = named_command(
        alloc,
        "map",
        "Draws a heap before and after it is compacted, and writes the picture",
    );
    let of_dump = with_argument(map, dump_option(alloc));
    let of_switch = with_argument(of_dump, large_switch(alloc));
    let of_image = with_argument(of_switch, image_argument(alloc));
    with_argument(
        of_image,
        path_argument(alloc, "OUT", "Where the picture is written, as an SVG"),
    )
}
