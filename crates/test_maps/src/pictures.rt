//! Pictures, made in memory, and what is counted in them.
use crate::expected::expect_so;
use heap_map::{DumpView, draw};
use page_plan::Plan;
use std::alloc::Global;
use std::process::Abort;

/// The picture of the heap of a plan, and of a dump if one is drawn.
pub fn picture_of(
    rt: &impl Abort,
    alloc: Global,
    plan: &Plan,
    view: Option<&DumpView<'_>>,
) -> String {
    draw(alloc, plan, view).expect(rt, "a picture in memory")
}

/// What stands before and after the shapes of a picture.
pub fn around_shapes<'a>(rt: &impl Abort, text: &'a str) -> (&'a str, &'a str) {
    let (head, after) = text
        .split_once("<defs>\n")
        .expect(rt, "a beginning of shapes");
    let (_, body) = after.split_once("</defs>\n").expect(rt, "an end of shapes");
    (head, body)
}

/// How often a part stands in a text.
pub fn count_of(text: &str, part: &str) -> usize {
    text.matches(part).count()
}

/// Checks that each shape that a picture uses is defined in it.
pub fn expect_defined(rt: &impl Abort, text: &str) {
    let (_, body) = around_shapes(rt, text);
    for used in body.split("#").skip(1) {
        if let Some((name, _)) = used.split_once("\"") {
            expect_so(rt, name, is_defined(text, name));
        }
    }
}

// Whether a shape of this name is defined, or it is a colour.
fn is_defined(text: &str, name: &str) -> bool {
    if name == "fff" || name == "000" {
        return true;
    }
    text.split("id=\"")
        .skip(1)
        .any(|part| match part.split_once("\"") {
            None => false,
            Some((id, _)) => id == name,
        })
}
