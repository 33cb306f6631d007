//! What a command does with a verdict.
ghost use Rattle.std.specs.Prelude.{◌≡◌, ◌≤◌, ◌++◌, OnOk};
ghost use Rattle.program_jobs.specs.Verdict.{last_line, verdict_status};

use program_arguments::status;
use std::alloc::{AllocError, Allocator};
use wl_check::{Verdict, write_verdict};

/// Appends the line of a verdict if a rule is broken, otherwise nothing.
pub fn write_broken<A: Allocator>(out: &mut Vec<u8, A>, verdict: &Verdict) -> Result<(), AllocError>
    ensures { OnOk result (out.new.items ≡ out.old.items ++ last_line verdict.now) }
{
    match verdict {
        Verdict::Lawful { .. } => Ok(()),
        Verdict::Broken { .. } => write_verdict(out, verdict),
    }
}

/// The exit status: 0 for a lawful session, 1 for a broken one.
pub fn status_of(verdict: &Verdict) -> u8
    ensures status { result ≡ verdict_status verdict.now }
    ensures known { result ≤ 1 }
{
    match verdict {
        Verdict::Lawful { .. } => status::SUCCESS,
        Verdict::Broken { .. } => status::BROKEN_SESSION,
    }
}
