//! The picture of the three objects, byte by byte.
use crate::expected::expect_eq;
use crate::pictures::{around_shapes, expect_defined, picture_of};
use test_support::{Worked, plan_of};

const HEAD: &str = "<?xml version=\"1.0\" encoding=\"UTF-8\"?>
<svg xmlns=\"http://www.w3.org/2000/svg\" xmlns:xlink=\"http://www.w3.org/1999/xlink\" role=\"img\" aria-labelledby=\"title desc\" width=\"1080\" height=\"362\" viewBox=\"0 0 1080 362\" font-family=\"monospace\" font-size=\"10\">
<title id=\"title\">Heap of edition one, before and after the slide</title>
<desc id=\"desc\">Above, from-space: 7 words on 1 pages, 2 marked objects. Below, to-space: 4 live words, 1 pages, and 0 fresh pages.</desc>
<rect width=\"1080\" height=\"362\" fill=\"#fff\"/>
<text x=\"12\" y=\"28\" font-size=\"18\">Heap of edition one, before and after the slide</text>
";

// The counts and the legend.
const LEGEND: &str =
    "<text x=\"12\" y=\"50\" font-size=\"12\">live words 4, pages 1; words 7, marks 2, roots 1</text>
<use xlink:href=\"#h0\" x=\"12\" y=\"75\"/>
<text x=\"30\" y=\"86\">header</text>
<use xlink:href=\"#r0\" x=\"120\" y=\"75\"/>
<text x=\"138\" y=\"86\">reference</text>
<use xlink:href=\"#w0\" x=\"240\" y=\"75\"/>
<text x=\"258\" y=\"86\">weak word</text>
<use xlink:href=\"#d0\" x=\"360\" y=\"75\"/>
<text x=\"378\" y=\"86\">data word</text>
<use xlink:href=\"#h8\" x=\"480\" y=\"75\"/>
<text x=\"498\" y=\"86\">not marked</text>
<use xlink:href=\"#d8\" x=\"600\" y=\"75\"/>
<text x=\"618\" y=\"86\">its data word</text>
<use xlink:href=\"#root\" x=\"12\" y=\"95\"/>
<text x=\"30\" y=\"106\">root</text>
<text x=\"12\" y=\"126\">A cell is a word, a row a page of 64 words; 8 pages are a region. An object has one colour before and after.</text>
<text x=\"12\" y=\"142\">arcs: 1 references; arrows: 1 roots.</text>
";

// From-space: the first object, the second, which is not marked, and the third.
const FROM: &str =
    "<text x=\"160\" y=\"196\" font-size=\"14\" font-weight=\"bold\">from-space</text>
<use xlink:href=\"#page\" x=\"160\" y=\"206\"/>
<use xlink:href=\"#region\" x=\"160\" y=\"206\"/>
<text x=\"8\" y=\"217\">region 0</text><text x=\"152\" y=\"217\" text-anchor=\"end\">0</text>
<use xlink:href=\"#h0\" x=\"160\" y=\"206\"/>
<use xlink:href=\"#d0\" x=\"172\" y=\"206\"/>
<use xlink:href=\"#h8\" x=\"184\" y=\"206\"/>
<use xlink:href=\"#r8\" x=\"196\" y=\"206\"/>
<use xlink:href=\"#d8\" x=\"208\" y=\"206\"/>
<use xlink:href=\"#h1\" x=\"220\" y=\"206\"/>
<use xlink:href=\"#r1\" x=\"232\" y=\"206\"/>
";

// To-space: the first and the third object, in their colours. Then the root in both spaces, and the reference.
const TO: &str = "<text x=\"160\" y=\"254\" font-size=\"14\" font-weight=\"bold\">to-space</text>
<use xlink:href=\"#page\" x=\"160\" y=\"264\"/>
<use xlink:href=\"#region\" x=\"160\" y=\"264\"/>
<text x=\"8\" y=\"275\">region 0</text><text x=\"152\" y=\"275\" text-anchor=\"end\">0</text>
<use xlink:href=\"#h0\" x=\"160\" y=\"264\"/>
<use xlink:href=\"#d0\" x=\"172\" y=\"264\"/>
<use xlink:href=\"#h1\" x=\"184\" y=\"264\"/>
<use xlink:href=\"#r1\" x=\"196\" y=\"264\"/>
<use xlink:href=\"#root\" x=\"220\" y=\"206\"/>
<use xlink:href=\"#root\" x=\"184\" y=\"264\"/>
<g fill=\"none\" stroke=\"#000\" stroke-opacity=\".6\">
<path d=\"M238 213Q200 195 162 213\"/>
<path d=\"M202 271Q182 253 162 271\"/>
</g>
</svg>
";

#[test]
fn three_objects_have_this_picture(rt: HostRuntime) {
    let plan = plan_of(&rt, rt.alloc(), Worked::Three).expect(&rt, "the plan");
    let picture = picture_of(&rt, rt.alloc(), &plan, None);
    let text = picture.as_str();
    let (head, body) = around_shapes(&rt, text);
    expect_eq(&rt, "head", head, HEAD);
    let spaces = body.strip_prefix(LEGEND).expect(&rt, "the legend");
    let to = spaces.strip_prefix(FROM).expect(&rt, "from-space");
    expect_eq(&rt, "to-space", to, TO);
    expect_defined(&rt, text);
}
