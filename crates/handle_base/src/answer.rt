//! What a call of C is answered.
ghost use Rattle.std.specs.Prelude.{◌≡◌};
ghost use Rattle.handle_base.specs.Answers.{bare, done, of_collect, of_collect_lent, of_layout, of_lent, of_marks, of_refusal, of_slide, of_survey, two, IsAnswer, IsPlace};

use crate::status;
use comp_crew::Refusal;
use heap_layout::LayoutFault;
use stopped_heap::{
    CollectFault, CollectLentFault, LentFault, MarksFault, SlideFault, SurveyFault,
};

/// A status and two numbers. The status 0 means that it is done; then the value is the result. Else the value and the
/// other number are those that the refusal names, in this order, or 0. The C headers have the statuses by name.
#[repr(C)]
#[derive(Clone, Copy, Debug, PartialEq, Eq)]
pub struct Answer {
    /// The status.
    pub status: u32,
    /// The second number of the refusal.
    pub other: u32,
    /// The result, or the number of the refusal.
    pub value: u64,
}

impl Answer {
    /// The answer of a call that is done.
    pub fn done(value: u64) -> Answer
        ensures { result ≡ done value }
    {
        Answer {
            status: 0,
            other: 0,
            value,
        }
    }

    /// The answer with this status and this number.
    pub fn bare(status: u32, value: u64) -> Answer
        ensures { result ≡ bare status value }
    {
        Answer {
            status,
            other: 0,
            value,
        }
    }

    /// The answer with this status and these two numbers.
    pub fn two(status: u32, value: u64, other: u32) -> Answer
        ensures { result ≡ two status value other }
    {
        Answer {
            status,
            other,
            value,
        }
    }

    /// The number at place `i` of a list; if there is none, the answer with this status and `i`.
    pub fn place(list: &[u64], i: u64, status: u32) -> Answer
        ensures { IsPlace status i list.now result }
    {
        if i < list.len() as u64 {
            Answer::done(list[i as usize])
        } else {
            Answer::bare(status, i)
        }
    }

    /// The answer of a refused call of a mutator; `n` is the field that was asked for, or the size of the object.
    pub fn refused(n: u32, refusal: Refusal) -> Answer
        ensures { result ≡ of_refusal n refusal }
    {
        match refusal {
            Refusal::Busy(p) => Answer::bare(status::BUSY, p),
            Refusal::Null => Answer::bare(status::NULL_OBJECT, 0),
            Refusal::NotAStart(a) => Answer::bare(status::NOT_A_START, a),
            Refusal::NoSuchField => Answer::bare(status::NO_SUCH_FIELD, u64::from(n)),
            Refusal::NotInEdition => Answer::bare(status::NOT_IN_EDITION, 0),
            Refusal::ObjectTooLarge => Answer::bare(status::OBJECT_TOO_LARGE, u64::from(n)),
            Refusal::OutOfPages => Answer::bare(status::OUT_OF_PAGES, 0),
            Refusal::JournalFull(p) => Answer::bare(status::JOURNAL_FULL, p),
            Refusal::OutOfMemory => Answer::bare(status::OUT_OF_MEMORY, 0),
        }
    }

    /// The answer of a call of a mutator; `n` as above.
    pub fn of(n: u32, called: Result<u64, Refusal>) -> Answer
        ensures { IsAnswer n called result }
    {
        match called {
            Ok(value) => Answer::done(value),
            Err(refusal) => Answer::refused(n, refusal),
        }
    }

    /// The answer of a heap that is not accepted.
    pub fn unaccepted(fault: LayoutFault) -> Answer
        ensures { result ≡ of_layout fault }
    {
        match fault {
            LayoutFault::TooLarge => Answer::bare(status::TOO_LARGE, 0),
            LayoutFault::ObjectPastEnd(i) => Answer::bare(status::OBJECT_PAST_END, i),
            LayoutFault::ObjectTooLong(i) => Answer::bare(status::OBJECT_TOO_LONG, i),
            LayoutFault::MarkNotStart(i) => Answer::bare(status::MARK_NOT_START, i),
            LayoutFault::MarksNotRising(i) => Answer::bare(status::MARKS_NOT_RISING, i),
            LayoutFault::BadRoot(i) => Answer::bare(status::BAD_ROOT, i),
            LayoutFault::UnmarkedTarget(i) => Answer::bare(status::UNMARKED_TARGET, i),
            LayoutFault::Truncated => Answer::bare(status::IMAGE_TRUNCATED, 0),
            LayoutFault::TrailingBytes => Answer::bare(status::IMAGE_TRAILING, 0),
            LayoutFault::BadMagic => Answer::bare(status::IMAGE_BAD_MAGIC, 0),
            LayoutFault::OutOfMemory => Answer::bare(status::OUT_OF_MEMORY, 0),
            LayoutFault::Device => Answer::bare(status::OUT_OF_MEMORY, 0),
            LayoutFault::BadWeak(i) => Answer::bare(status::BAD_WEAK, i),
        }
    }

    /// The answer of words and roots that are not surveyed.
    pub fn unsurveyed(fault: SurveyFault) -> Answer
        ensures { result ≡ of_survey fault }
    {
        match fault {
            SurveyFault::TooLarge => Answer::bare(status::TOO_LARGE, 0),
            SurveyFault::BadRoot(k) => Answer::bare(status::BAD_ROOT, k),
            SurveyFault::BadReference(i) => Answer::bare(status::BAD_REFERENCE, i),
            SurveyFault::BadWeak(i) => Answer::bare(status::BAD_WEAK, i),
            SurveyFault::ObjectTooLong(i) => Answer::bare(status::OBJECT_TOO_LONG, i),
            SurveyFault::ObjectPastEnd(i) => Answer::bare(status::OBJECT_PAST_END, i),
            SurveyFault::Overlap(i) => Answer::bare(status::OVERLAP, i),
            SurveyFault::OutOfMemory => Answer::bare(status::OUT_OF_MEMORY, 0),
        }
    }

    /// The answer of words that are not surveyed by marks of the caller's own.
    pub fn unmarked(fault: MarksFault) -> Answer
        ensures { result ≡ of_marks fault }
    {
        match fault {
            MarksFault::TooLarge => Answer::bare(status::TOO_LARGE, 0),
            MarksFault::WrongLength => Answer::bare(status::WRONG_LENGTH, 0),
            MarksFault::BadRoot(k) => Answer::bare(status::BAD_ROOT, k),
            MarksFault::ObjectTooLong(i) => Answer::bare(status::OBJECT_TOO_LONG, i),
            MarksFault::ObjectPastEnd(i) => Answer::bare(status::OBJECT_PAST_END, i),
            MarksFault::Overlap(i) => Answer::bare(status::OVERLAP, i),
            MarksFault::UnmarkedTarget(i) => Answer::bare(status::UNMARKED_TARGET, i),
            MarksFault::BadWeak(i) => Answer::bare(status::BAD_WEAK, i),
            MarksFault::OutOfMemory => Answer::bare(status::OUT_OF_MEMORY, 0),
        }
    }

    /// The answer of a part that is not filled.
    pub fn unslid(fault: SlideFault) -> Answer
        ensures { result ≡ of_slide fault }
    {
        match fault {
            SlideFault::NoSuchPart => Answer::bare(status::NO_SUCH_PART, 0),
            SlideFault::OtherCount => Answer::bare(status::OTHER_COUNT, 0),
            SlideFault::Changed(i) => Answer::bare(status::CHANGED, i),
            SlideFault::Unmarked(i) => Answer::bare(status::UNMARKED, i),
        }
    }

    /// The answer of a heap that is not collected.
    pub fn uncollected(fault: CollectFault) -> Answer
        ensures { result ≡ of_collect fault }
    {
        match fault {
            CollectFault::Survey(fault) => Answer::unsurveyed(fault),
            CollectFault::NoRoom(live) => Answer::bare(status::TOO_SHORT, live),
        }
    }

    /// The answer of words and roots that are not surveyed by tables that were lent.
    pub fn unlent(fault: LentFault) -> Answer
        ensures { result ≡ of_lent fault }
    {
        match fault {
            LentFault::ShortTables(room) => Answer::bare(status::SHORT_TABLES, room),
            LentFault::Survey(fault) => Answer::unsurveyed(fault),
        }
    }

    /// The answer of a heap that is not collected by tables that were lent.
    pub fn uncollected_lent(fault: CollectLentFault) -> Answer
        ensures { result ≡ of_collect_lent fault }
    {
        match fault {
            CollectLentFault::ShortTables(room) => Answer::bare(status::SHORT_TABLES, room),
            CollectLentFault::Collect(fault) => Answer::uncollected(fault),
        }
    }
}
