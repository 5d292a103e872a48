//! A job, from its beginning to its end.
ghost use Rattle.std.specs.Prelude.{◌≡◌, IfErr, IfOk};
ghost use Rattle.rest_marks.specs.Reached.{IsFaultOf};
ghost use Rattle.mark_job.specs.Asked.{IsBeginFault, IsMarkedOf, IsSmall};

use crate::desk::Desk;
use crate::ended::{Ended, NotBegun};
use crate::help::Help;
use crate::image::Image;
use crate::lanes::LANES;
use crate::surveying::survey;
use heap_layout::Edition;
use std::alloc::Global;
use std::marker::Model;
use stopped_heap::SurveyFault;

/// The marking of a heap by whichever threads help. Threads may share it, by reference or in an `Arc`. If it is
/// dropped, at whatever time, all that it holds is freed. Contracts see the heap: its edition, its words and its roots.
#[derive(Drop)]
pub struct Job {
    pub(crate) image: Image,
    pub(crate) desk: Desk,
}

impl Model for Job {
    ghost use Rattle.std.specs.Prelude.{◌≡◌, ◌*◌, ◌≤◌, length};
    ghost use Rattle.mark_job.specs.Asked.{Asked};

    ghost Value = { Asked };

    ghost view = { λ job. job.image };

    ghost invariant = { λ job. (job.desk.lanes.table.shared.key ≡ job.image) × (length job.image.words ≤ 64 * length job.desk.seen.items) };
}

impl Job {
    /// Begins to mark what these roots reach in these words. The job keeps both until it is finished. Of the heap it
    /// looks at the roots alone. It takes a bit for each word, and in the course of the job 4 bytes for each object
    /// that is met. Err with `TooLarge` if there are too many words or roots for the edition; if not, with
    /// `OutOfMemory`, if memory runs out; then the words and roots come back. A fault of the heap comes out at the end.
    pub fn begin(
        alloc: Global,
        edition: Edition,
        words: Vec<u64>,
        roots: Vec<u64>,
    ) -> Result<Job, NotBegun>
        ensures asked { IfOk result (λ job. job ≡ record { edition = edition; words = words.items; roots = roots.items }) }
        ensures few { IfOk result IsSmall }
        ensures fault { IfErr result (λ refused. IsBeginFault (record { edition = edition; words = words.items; roots = roots.items }) refused.fault) }
        ensures words { IfErr result (λ refused. refused.words.items ≡ words.items) }
        ensures roots { IfErr result (λ refused. refused.roots.items ≡ roots.items) }
    {
        if words.len() > edition.max_words() || roots.len() > edition.max_roots() {
            return Err(NotBegun {
                fault: SurveyFault::TooLarge,
                words,
                roots,
            });
        }
        let image = Image {
            edition,
            words,
            roots,
        };
        match Desk::new(alloc, &image) {
            Ok(desk) => Ok(Job { image, desk }),
            Err(_) => {
                let Image {
                    edition: _,
                    words,
                    roots,
                } = image;
                Err(NotBegun {
                    fault: SurveyFault::OutOfMemory,
                    words,
                    roots,
                })
            }
        }
    }

    /// Looks at some of the objects that wait, at most 1,024, each with all its references. Any threads may call it at
    /// the same time, as often as they like. It waits for no other thread, and tries no step again. `who` is any
    /// number: threads with different ones seldom get in each other's way.
    ///
    /// After `Idle` other threads have all that waits; call again a little later, since more may come to wait. After
    /// `Done` nothing is left to help with: all is met, or a helper met a fault or got no memory. If a thread dies in
    /// the middle of a call, no call may answer `Done` any more; the job may be finished at any time all the same.
    pub fn help(&self, alloc: Global, who: usize) -> Help {
        self.desk.help(alloc, &self.image, who % LANES)
    }

    // Helps until nothing waits that could be had.
    fn go_on(&self, alloc: Global) {
        for _ in 0..self.image.words.len() {
            if self.help(alloc, 0) != Help::Worked {
                return;
            }
        }
    }

    /// Finishes the job, whatever was done before: what the roots reach, and where it slides, as a survey by one thread
    /// finds it, or a fault that is there. This thread first does alone what still waits. If objects were lost then, as
    /// a thread died in the middle of a call or memory ran out, it surveys the heap anew. The words and roots come
    /// back.
    pub fn finish(self, alloc: Global) -> Ended
        ensures found { IfOk result.found (IsMarkedOf self) }
        ensures fault { IfErr result.found (IsFaultOf self.edition self.words self.roots) }
        ensures words { result.words.items ≡ self.words }
        ensures roots { result.roots.items ≡ self.roots }
    {
        self.go_on(alloc);
        let Job { image, desk } = self;
        let Desk {
            lanes,
            seen,
            sizes: _,
            left: _,
            lost: _,
        } = desk;
        drop(seen);
        let found = survey(alloc, &image, lanes);
        let Image {
            edition: _,
            words,
            roots,
        } = image;
        Ended {
            words,
            roots,
            found,
        }
    }
}
