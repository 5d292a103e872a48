//! Pictures of dumps.
use crate::expected::{expect_eq, expect_so};
use crate::pictures::{count_of, expect_defined, picture_of};
use comp_dump::{AuditFault, read_dump};
use heap_layout::{Counted, TO_SPACE as T};
use heap_map::DumpView;
use std::alloc::Global;
use std::process::Abort;
use std::thread::Threads;
use test_support::{Content, Part, Worked, bytes_in, bytes_of, plan_of};

/// The picture of the three objects and of a dump with these bytes.
pub fn pictured(
    rt: &(impl Abort + Threads + Sync),
    alloc: Global,
    bytes: &[u8],
    fault: Option<AuditFault>,
    told: &str,
) -> String {
    let plan = plan_of(rt, alloc, Worked::Three).expect(rt, "the plan");
    let dump = read_dump(alloc, &mut Counted::new(bytes)).expect(rt, "the dump");
    let view = DumpView {
        dump: &dump,
        fault,
        told,
    };
    picture_of(rt, alloc, &plan, Some(&view))
}

// What is drawn of the page of the three objects: the slid objects; their page has one entry, and mutator 0 built it.
const BUILT: &str = "<use xlink:href=\"#h0\" x=\"160\" y=\"264\"/>
<use xlink:href=\"#d0\" x=\"172\" y=\"264\"/>
<use xlink:href=\"#h1\" x=\"184\" y=\"264\"/>
<use xlink:href=\"#r1\" x=\"196\" y=\"264\"/>
<text x=\"976\" y=\"275\">entries 1</text>
<use xlink:href=\"#b0\" x=\"160\" y=\"264\"/>
<text x=\"944\" y=\"275\">m0</text>
<use xlink:href=\"#h7\" x=\"160\" y=\"322\"/>
<text x=\"976\" y=\"333\">entries 1</text>
";

// What follows the pages: the root, the reference of from-space, and that of to-space, which leads to the new object.
const LED: &str = "<use xlink:href=\"#root\" x=\"220\" y=\"206\"/>
<use xlink:href=\"#root\" x=\"184\" y=\"264\"/>
<g fill=\"none\" stroke=\"#000\" stroke-opacity=\".6\">
<path d=\"M238 213Q200 195 162 213\"/>
<path d=\"M202 271Q182 253 162 329\"/>
</g>
</svg>
";

#[test]
fn a_new_object_stands_on_its_fresh_page(rt: HostRuntime) {
    let alloc = rt.alloc();
    let bytes = bytes_in(alloc, Content::FreshDump).expect(&rt, "the bytes");
    let picture = pictured(&rt, alloc, &bytes, None, "");
    let text = picture.as_str();
    expect_so(&rt, "the pages", text.contains(BUILT));
    expect_so(&rt, "roots and references", text.ends_with(LED));
    expect_eq(&rt, "words never built", count_of(text, "#miss"), 1 + 64);
    expect_defined(&rt, text);
}

#[test]
fn a_fault_is_marked_and_told(rt: HostRuntime) {
    let alloc = rt.alloc();
    let bytes = bytes_in(alloc, Content::FreshDump).expect(&rt, "the bytes");
    let fault = AuditFault::WrongWord(T + 1);
    let picture = pictured(&rt, alloc, &bytes, Some(fault), "a < b & c\nd > e");
    let text = picture.as_str();
    expect_so(
        &rt,
        "the fault",
        text.contains("! A1 WrongWord(8589934593)</text>"),
    );
    expect_so(&rt, "a line", text.contains(">a &lt; b &amp; c</text>"));
    expect_so(&rt, "a second line", text.contains(">d &gt; e</text>"));
    let mark = "<use xlink:href=\"#bad\" x=\"172\" y=\"312\"/>";
    expect_so(&rt, "the mark", text.contains(mark));
}

// A dump of one page and 100 fresh ones, of which none was built; mutator 0 claims to have built page 3.
const FRESH: [Part; 7] = [
    Part::Bytes(b"COMPDUMP"),
    Part::Numbers(&[1, 1, 100, 101, 1]),
    Part::Words(&[T + 2]),
    Part::Bytes(&[0; 101]),
    Part::Numbers(&[1]),
    Part::Numbers(&[3]),
    Part::Words(&[4]),
];

#[test]
fn fresh_pages_are_cells_of_their_own(rt: HostRuntime) {
    let alloc = rt.alloc();
    let bytes = bytes_of(alloc, &FRESH).expect(&rt, "the bytes");
    let fault = AuditFault::BuildUnclaimed(3);
    let picture = pictured(&rt, alloc, &bytes, Some(fault), "");
    let text = picture.as_str();
    expect_eq(
        &rt,
        "cells never built",
        count_of(text, "\"#miss\""),
        1 + 101,
    );
    expect_eq(&rt, "frames", count_of(text, "\"#m0\""), 1 + 1);
    expect_eq(&rt, "faults", count_of(text, "\"#bad\""), 1 + 1);
    expect_defined(&rt, text);
}
