//! Exports for a job that marks a heap at rest by threads of the caller's.
ghost use Rattle.std.specs.Prelude.{◌≡◌, None};
ghost use Rattle.rest_handle.specs.Helping.{BeginsJob, Helps};
ghost use Rattle.handle_base.specs.HandleKinds.{job_in, Asks, Turns};
ghost use Rattle.rest_handle.specs.Lending.{IsStillShared};
ghost use Rattle.rest_handle.specs.Resting.{Surveys};
ghost use Rattle.handle_base.specs.Sharing.{Shares};

use handle_base::{Answer, Handle};
use std::alloc::Global;

/// Begins a job that marks what these roots reach in these words, of this edition, 1 to 4.
#[unsafe(no_mangle)]
pub extern "C" fn compressor_c_job_begin(
    alloc: Global,
    edition: u32,
    words: &[u64],
    roots: &[u64],
    job: &mut Handle,
) -> Answer
    ensures { BeginsJob edition words.now roots.now job.old.kept job.new.kept result }
{
    rest_handle::begin_job(alloc, edition, words, roots, job)
}

/// Another share of a job, for another thread.
#[unsafe(no_mangle)]
pub extern "C" fn compressor_job_share(
    alloc: Global,
    job: &mut Handle,
    other: &mut Handle,
) -> Answer
    ensures same { job.new.kept ≡ job.old.kept }
    ensures shares { Shares job_in job.old.kept other.old.kept other.new.kept result }
{
    rest_handle::share_job(alloc, job, other)
}

/// Looks at some of the objects that wait.
#[unsafe(no_mangle)]
pub extern "C" fn compressor_job_help(alloc: Global, job: &mut Handle, who: u64) -> Answer
    ensures same { job.new.kept ≡ job.old.kept }
    ensures helps { Asks 0 job_in Helps (Unit {0}) job.old.kept result }
{
    rest_handle::help_job(alloc, job, who)
}

/// Finishes a job. The handle of the survey keeps what it found then, and that of the job is empty.
#[unsafe(no_mangle)]
pub extern "C" fn compressor_job_finish(
    alloc: Global,
    job: &mut Handle,
    survey: &mut Handle,
) -> Answer
    ensures { Turns job_in Surveys IsStillShared job.old.kept job.new.kept survey.old.kept survey.new.kept result }
{
    rest_handle::finish_job(alloc, job, survey)
}

/// Drops a job. Its handle is empty then.
#[unsafe(no_mangle)]
pub extern "C" fn compressor_job_drop(alloc: Global, job: &mut Handle)
    ensures { job.new.kept ≡ None }
{
    flip_handle::drop_kept(alloc, job);
}
