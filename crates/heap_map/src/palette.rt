//! The colours, and the shapes that the picture uses by name.
ghost use Rattle.std.specs.Prelude.{◌≡◌, ◌%◌};
ghost use Rattle.heap_map.specs.Cells.{letter_of};

use heap_layout::Kind;
use std::alloc::AllocError;

// The colours of Okabe and Ito without their black, for objects and mutators in turn; then that of new objects and that
// of what is not marked.
const COLOURS: [&str; 9] = [
    "#E69F00", "#56B4E9", "#009E73", "#F0E442", "#0072B2", "#D55E00", "#CC79A7", "#000000",
    "#999999",
];

// How many of them objects and mutators take in turn.
const IN_TURN: u64 = 7;

// The shapes that have one colour: a page, a region's rule, a page that was never built, a root, a fault, the shades of
// a cell by how much of it is live, and the dots of its entries.
const SHAPES: &str = "<rect id=\"page\" width=\"768\" height=\"14\" fill=\"#fff\" stroke=\"#ccc\"/>
<path id=\"region\" d=\"M-152 -1H768\" stroke=\"#000\" stroke-width=\"2\"/>
<g id=\"miss\"><rect width=\"12\" height=\"14\" fill=\"#fff\" stroke=\"#999\"/><path d=\"M0 7L6 0M0 14L12 0M6 14L12 7\" stroke=\"#666\"/></g>
<path id=\"root\" d=\"M4 3L11 7L4 11z\" fill=\"#000\" stroke=\"#fff\"/>
<g id=\"bad\"><rect x=\"-2\" y=\"-2\" width=\"16\" height=\"18\" fill=\"none\" stroke=\"#000\" stroke-width=\"3\"/><rect x=\"1\" y=\"-17\" width=\"10\" height=\"15\" fill=\"#fff\" stroke=\"#000\"/><text x=\"1\" y=\"-4\" font-size=\"16\" font-weight=\"bold\">!</text></g>
<g id=\"badpage\"><rect x=\"-2\" y=\"-2\" width=\"772\" height=\"18\" fill=\"none\" stroke=\"#000\" stroke-width=\"3\"/><text x=\"774\" y=\"14\" font-size=\"16\" font-weight=\"bold\">!</text></g>
<rect id=\"s0\" width=\"12\" height=\"14\" fill=\"#fff\" stroke=\"#999\"/>
<rect id=\"s1\" width=\"12\" height=\"14\" fill=\"#D9E8F2\" stroke=\"#999\"/>
<rect id=\"s2\" width=\"12\" height=\"14\" fill=\"#A6CAE0\" stroke=\"#999\"/>
<rect id=\"s3\" width=\"12\" height=\"14\" fill=\"#6BA6CD\" stroke=\"#999\"/>
<rect id=\"s4\" width=\"12\" height=\"14\" fill=\"#2F7FB5\" stroke=\"#999\"/>
<rect id=\"s5\" width=\"12\" height=\"14\" fill=\"#004C78\" stroke=\"#999\"/>
<circle id=\"e1\" cx=\"6\" cy=\"7\" r=\"2\" fill=\"#000\" stroke=\"#fff\"/>
<circle id=\"e2\" cx=\"6\" cy=\"7\" r=\"3\" fill=\"#000\" stroke=\"#fff\"/>
<circle id=\"e3\" cx=\"6\" cy=\"7\" r=\"4\" fill=\"#000\" stroke=\"#fff\"/>
<circle id=\"e4\" cx=\"6\" cy=\"7\" r=\"5\" fill=\"#000\" stroke=\"#fff\"/>
";

/// The colour of an object or of a mutator.
#[derive(Clone, Copy, Debug, PartialEq, Eq)]
pub struct Colour(u8);

impl Colour {
    /// The colour of the object or the mutator with this number. Seven colours take turns.
    pub fn of_number(number: u64) -> Colour
        ensures { result.0 ≡ number % 7 }
    {
        Colour((number % IN_TURN) as u8)
    }

    /// The colour of the object after one with this colour.
    pub fn after(self) -> Colour {
        Colour::of_number(u64::from(self.0) + 1)
    }

    /// The colour of a new object.
    pub fn of_new() -> Colour {
        Colour(7)
    }

    /// The colour of an object that is not marked.
    pub fn of_unmarked() -> Colour {
        Colour(8)
    }

    /// The number by which the names of its shapes end.
    pub fn number(self) -> u64
        ensures { result ≡ self.0 }
    {
        u64::from(self.0)
    }
}

/// The name of the shape of a word of this kind, without the number of its colour.
pub fn shape_of(kind: Kind) -> &'static str
    ensures { result.now ≡ letter_of kind }
{
    match kind {
        Kind::Header => "h",
        Kind::Reference => "r",
        Kind::Weak => "w",
        Kind::Data => "d",
    }
}

/// Adds the shapes to a picture: of each colour the words by their kind, and the frames of a cell and of a page that a
/// mutator built.
pub fn define_shapes(picture: &mut String) -> Result<(), AllocError> {
    picture.push_str("<defs>\n")?;
    picture.push_str(SHAPES)?;
    for (i, colour) in COLOURS.iter().enumerate() {
        define_words(picture, i, colour)?;
        define_frames(picture, i, colour)?;
    }
    picture.push_str("</defs>\n")
}

// The shapes of words of one colour: a header is full, with a bar at its left; a reference has a line and a weak word a
// ring, on half of the colour; a data word has a quarter of it.
fn define_words(picture: &mut String, i: usize, colour: &str) -> Result<(), AllocError> {
    write!(
        picture,
        "<g id=\"h{i}\"><rect width=\"12\" height=\"14\" fill=\"{colour}\" stroke=\"{colour}\"/><rect width=\"3\" height=\"14\"/></g>\n"
    )?;
    write!(
        picture,
        "<g id=\"r{i}\"><rect width=\"12\" height=\"14\" fill=\"{colour}\" fill-opacity=\".5\" stroke=\"{colour}\"/><path d=\"M2 12L10 2\" stroke=\"#000\"/></g>\n"
    )?;
    write!(
        picture,
        "<g id=\"w{i}\"><rect width=\"12\" height=\"14\" fill=\"{colour}\" fill-opacity=\".5\" stroke=\"{colour}\"/><circle cx=\"6\" cy=\"7\" r=\"3\" fill=\"#fff\" stroke=\"#000\"/></g>\n"
    )?;
    write!(
        picture,
        "<rect id=\"d{i}\" width=\"12\" height=\"14\" fill=\"{colour}\" fill-opacity=\".25\" stroke=\"{colour}\"/>\n"
    )
}

// The frames of a cell and of a page in one colour.
fn define_frames(picture: &mut String, i: usize, colour: &str) -> Result<(), AllocError> {
    write!(
        picture,
        "<rect id=\"m{i}\" x=\"1\" y=\"1\" width=\"10\" height=\"12\" fill=\"none\" stroke=\"{colour}\" stroke-width=\"2\"/>\n"
    )?;
    write!(
        picture,
        "<rect id=\"b{i}\" x=\"-1\" y=\"-1\" width=\"770\" height=\"16\" fill=\"none\" stroke=\"{colour}\" stroke-width=\"3\"/>\n"
    )
}
