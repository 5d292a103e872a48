//! What was found, as a survey.
ghost use Rattle.std.specs.Prelude.{◌≡◌, ℕ, ◌*◌, ◌≤◌, false, length, IfErr, IfOk, IfSome};
ghost use Rattle.heap_layout.specs.Bits.{bit};
ghost use Rattle.rest_marks.specs.Reached.{IsFaultOf};
ghost use Rattle.mark_job.specs.Asked.{IsMarkedOf};

use crate::image::Image;
use crate::lanes::Lanes;
use std::alloc::Global;
use stopped_heap::{Places, Survey, SurveyFault};

// What was found, by the objects in the lanes, whose bits are set in `heads`. None if they are not all that the roots
// reach, the heap has a fault, or memory runs out. No bit may be set before.
fn survey_marked(alloc: Global, image: &Image, lanes: Lanes, heads: &mut [u64]) -> Option<Places>
    requires key { lanes.table.shared.key ≡ image.now }
    requires room { length image.now.words ≤ 64 * length heads.old }
    requires none { (i : ℕ) → bit heads.old i ≡ false }
    ensures { IfSome result (IsMarkedOf image.now) }
{
    lanes.mark(image, heads);
    let edition = image.edition();
    let words = image.words();
    let roots = image.roots();
    let Ok(survey) = Survey::of_marks(alloc, edition, words, roots, heads) else {
        return None;
    };
    Some(survey.release())
}

// The same with bits of its own.
fn survey_lanes(alloc: Global, image: &Image, lanes: Lanes) -> Option<Places>
    requires { lanes.table.shared.key ≡ image.now }
    ensures { IfSome result (IsMarkedOf image.now) }
{
    let Ok(mut heads) = vec![in alloc; 0u64; image.words().len().div_ceil(64)] else {
        return None;
    };
    survey_marked(alloc, image, lanes, &mut heads)
}

// What one thread finds.
fn survey_alone(alloc: Global, image: &Image) -> Result<Places, SurveyFault>
    ensures found { IfOk result (IsMarkedOf image.now) }
    ensures fault { IfErr result (IsFaultOf image.now.edition image.now.words image.now.roots) }
{
    let survey = Survey::of(alloc, image.edition, &image.words, &image.roots)?;
    Ok(survey.release())
}

/// What the helpers found, or one thread, if that is not all.
pub(crate) fn survey(alloc: Global, image: &Image, lanes: Lanes) -> Result<Places, SurveyFault>
    requires { lanes.table.shared.key ≡ image.now }
    ensures found { IfOk result (IsMarkedOf image.now) }
    ensures fault { IfErr result (IsFaultOf image.now.edition image.now.words image.now.roots) }
{
    match survey_lanes(alloc, image, lanes) {
        Some(found) => Ok(found),
        None => survey_alone(alloc, image),
    }
}
