//! Streams in memory whose calls follow a script. They show what happens when a stream fails.
ghost use Rattle.std.specs.Prelude.{◌≡◌, []};

use std::alloc::{Allocator, Global};
use std::io::{self, ErrorKind, Read, Write};

/// What one call of a scripted stream does.
#[derive(Clone, Copy, Debug, PartialEq, Eq)]
pub enum Step {
    /// At most this many bytes pass.
    Pass(usize),
    /// The call fails with an error of this kind, and no byte passes.
    Fail(ErrorKind),
}

/// Returns what the next call does, and removes it from the script. After the script, all bytes
/// pass.
fn next_step(script: &mut &[Step]) -> Step {
    match script.split_first() {
        Some((step, rest)) => {
            *script = rest;
            *step
        }
        None => Step::Pass(usize::MAX),
    }
}

/// A reader of bytes in memory.
///
/// It returns no bytes only at their end, so `Pass(0)` means `Pass(1)`.
#[derive(Clone, Copy, Debug)]
pub struct ScriptReader<'a> {
    bytes: &'a [u8],
    script: &'a [Step],
}

impl<'a> ScriptReader<'a> {
    /// A reader of these bytes.
    pub fn new(bytes: &'a [u8], script: &'a [Step]) -> Self
        ensures bytes { result.bytes ≡ bytes.entry }
        ensures script { result.script ≡ script.entry }
    {
        ScriptReader { bytes, script }
    }
}

impl<'a> Read for ScriptReader<'a> {
    ghost use Rattle.std.specs.Prelude.{Some};

    ghost remaining = { λ r. Some r.bytes.now };

    fn read(&mut self, buf: &mut [u8]) -> io::Result<usize> {
        let most = match next_step(&mut self.script) {
            Step::Pass(most) => most.max(1),
            Step::Fail(kind) => return Err(io::Error::from(kind)),
        };
        let n = most.min(buf.len()).min(self.bytes.len());
        buf[..n].copy_from_slice(&self.bytes[..n]);
        self.bytes = &self.bytes[n..];
        Ok(n)
    }
}

/// A writer that keeps what it takes in memory. A write also fails if there is no memory for it.
#[derive(Debug, Drop)]
pub struct ScriptWriter<'a, A: Allocator = Global> {
    written: Vec<u8, A>,
    script: &'a [Step],
}

impl<'a, A: Allocator> ScriptWriter<'a, A> {
    /// A writer that has taken no bytes.
    pub fn new(alloc: A, script: &'a [Step]) -> Self
        ensures written { result.written.items ≡ [] }
        ensures script { result.script ≡ script.entry }
    {
        ScriptWriter {
            written: Vec::new(alloc),
            script,
        }
    }

    /// The bytes that it has taken.
    pub fn written(&self) -> &[u8]
        ensures { result.now ≡ self.now.written.items }
    {
        self.written.as_slice()
    }
}

impl<'a, A: Allocator> Write for ScriptWriter<'a, A> {
    ghost use Rattle.std.specs.Prelude.{Some};

    ghost contents = { λ w. Some w.written.items };

    fn write(&mut self, buf: &[u8]) -> io::Result<usize> {
        let most = match next_step(&mut self.script) {
            Step::Pass(most) => most,
            Step::Fail(kind) => return Err(io::Error::from(kind)),
        };
        let n = most.min(buf.len());
        self.written.extend_from_slice(&buf[..n])?;
        Ok(n)
    }

    fn flush(&mut self) -> io::Result<()> {
        Ok(())
    }
}
