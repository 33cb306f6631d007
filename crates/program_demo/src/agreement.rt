//! The last line printed for the session.
ghost use Rattle.std.specs.Prelude.{◌≡◌, ◌++◌, OnOk};
ghost use Rattle.program_demo.specs.Agreement.{agreement_line};

use std::alloc::{AllocError, Allocator};
use std::io::Write;

/// Appends the last line: whether both ends have the same objects, and how many.
pub fn write_agreement<A: Allocator>(
    out: &mut Vec<u8, A>,
    agree: bool,
    objects: usize,
) -> Result<(), AllocError>
    ensures { OnOk result (out.new.items ≡ out.old.items ++ agreement_line agree objects) }
{
    let word = if agree { "agree" } else { "disagree" };
    writeln!(out, "{word}: {objects} objects").map_err(|_| AllocError)
}
