//! Why a job has no output.
ghost use Rattle.std.specs.Prelude.{◌≡◌, ◌++◌, OnOk};
ghost use Rattle.std.specs.Io.KnownBytes.{Appends};
ghost use Rattle.program_jobs.specs.declared.failure.Failure.TheVariants as failures;
ghost use Rattle.std.specs.IoError.{error_kind};
ghost use Rattle.program_jobs.specs.Failing.{IsSocketFailure, failure_line, failure_text};
ghost use Rattle.program_jobs.specs.Failing.{status_of};
ghost use Rattle.program_jobs.specs.Failing.{recording_failure, socket_failure};
ghost use Rattle.program_stream.specs.Writing.{AppendsFront};

use itoa::Buffer;
use program_arguments::status;
use program_socket::SocketError;
use program_stream::{write_three, write_whole};
use std::alloc::{AllocError, AllocFailed};
use std::fmt::{self, Display, Formatter};
use std::io::{self, ErrorKind, Write};
use thiserror::Error;
use wl_recording::RecordingError;

/// The second line for a recording that is too long.
const SEE_STREAM: &str = "for a recording of any length, see --stream";

/// Why a job has no output. Standard error gets its text after `waywire: `.
#[derive(Clone, Copy, Debug, PartialEq, Eq, Error)]
pub enum Failure<'a> {
    /// The file of this name cannot be opened, or its reading failed.
    #[error("cannot read {0}")]
    CannotRead(&'a str),
    /// The file has more than 16,777,216 bytes.
    #[error("file too long")]
    TooLong,
    /// So has that of a recording, which may have any length as a stream.
    #[error("file too long\nwaywire: for a recording of any length, see --stream")]
    LongRecording,
    /// This line cannot be in a recording. Lines are counted from 1.
    #[error("line {0}: bad line")]
    BadLine(usize),
    /// This line has none of the forms of a table text. `file` is `None` if the command line names
    /// only the file with this line.
    #[error("tables {}line {line}: bad line", FileName(*file))]
    BadTablesLine {
        file: Option<&'a str>,
        line: usize,
    },
    /// This line of a table text breaks this rule of valid tables.
    #[error("tables {}line {line}: breaks V{rule}", FileName(*file))]
    BreaksRule {
        file: Option<&'a str>,
        line: usize,
        rule: u8,
    },
    /// The output was not taken.
    #[error("cannot write")]
    CannotWrite,
    /// A call of the socket failed, its input ended early, or the two ends connected by it do not
    /// have the same objects.
    #[error("socket failed")]
    SocketFailed,
    /// There is no memory.
    #[error("out of memory")]
    Memory,
}

/// The name of a file, to be written before one of its lines, if it is to be named.
#[derive(Drop)]
struct FileName<'a>(Option<&'a str>);

impl Display for FileName<'_> {
    fn fmt<W: fmt::Write>(&self, f: &mut Formatter<W>) -> fmt::Result {
        match self.0 {
            Some(name) => write!(f, "{name} "),
            None => Ok(()),
        }
    }
}

/// A text in six parts, so that it can be written without allocating. Contracts name its bytes by
/// these parts, because the derived `Display` has no contract.
struct LineParts<'a>(&'a str, &'a str, &'a str, &'a str, &'a str, &'a str);

impl Failure<'_> {
    /// Why a call of the socket failed.
    pub(crate) fn of_socket(error: &io::Error) -> Failure<'static>
        ensures { IsSocketFailure (error_kind error.now) result }
    {
        match error.kind() {
            ErrorKind::OutOfMemory => Failure::Memory,
            _ => Failure::SocketFailed,
        }
    }

    /// The exit status: 4 for lack of memory, else 3.
    fn status(&self) -> u8
        ensures { result ≡ status_of self.now }
    {
        match self {
            Failure::Memory => status::OUT_OF_MEMORY,
            _ => status::FAILURE,
        }
    }

    /// Its text. `line` and `rule` are buffers for numbers.
    fn parts<'b>(&'b self, line: &'b mut Buffer, rule: &'b mut Buffer) -> LineParts<'b>
        ensures { result.0.now ++ (result.1.now ++ (result.2.now ++ (result.3.now
            ++ (result.4.now ++ result.5.now)))) ≡ failure_text self.now }
    {
        match self {
            Failure::CannotRead(name) => LineParts("cannot read ", name, "", "", "", ""),
            Failure::TooLong => LineParts("file too long", "", "", "", "", ""),
            Failure::LongRecording => LineParts(
                "file too long\nwaywire: ",
                SEE_STREAM,
                "",
                "",
                "",
                "",
            ),
            Failure::BadLine(n) => LineParts("line ", line.format(*n), ": bad line", "", "", ""),
            Failure::BadTablesLine { file, line: n } => match file {
                None => LineParts("tables line ", line.format(*n), ": bad line", "", "", ""),
                Some(name) => {
                    LineParts("tables ", name, " line ", line.format(*n), ": bad line", "")
                }
            },
            Failure::BreaksRule {
                file,
                line: n,
                rule: r,
            } => {
                let (n, r) = (line.format(*n), rule.format(*r));
                match file {
                    None => LineParts("tables line ", n, ": breaks V", r, "", ""),
                    Some(name) => LineParts("tables ", name, " line ", n, ": breaks V", r),
                }
            }
            Failure::CannotWrite => LineParts("cannot write", "", "", "", "", ""),
            Failure::SocketFailed => LineParts("socket failed", "", "", "", "", ""),
            Failure::Memory => LineParts("out of memory", "", "", "", "", ""),
        }
    }

    /// Writes the line of this failure to `err`, which is standard error. If that fails, only a
    /// front part of the line was written.
    pub fn write_line<E: Write>(&self, err: &mut E) -> io::Result<()>
        ensures whole { OnOk result
            (Appends (E.contents err.old) (E.contents err.new) (failure_line self.now)) }
        ensures front { AppendsFront (E.contents err.old) (E.contents err.new)
            (failure_line self.now) }
    {
        let mut line = Buffer::new();
        let mut rule = Buffer::new();
        let LineParts(first, second, third, fourth, fifth, sixth) = self.parts(
            &mut line, &mut rule,
        );
        write_whole(err, b"waywire: ")?;
        write_three(err, first, second, third)?;
        write_three(err, fourth, fifth, sixth)?;
        write_whole(err, b"\n")
    }

    /// Writes the failure's line to `err`, and returns the exit status. If `err` fails, nothing
    /// more is written.
    pub fn report<E: Write>(&self, err: &mut E) -> u8
        ensures status { result ≡ status_of self.now }
        ensures said { AppendsFront (E.contents err.old) (E.contents err.new)
            (failure_line self.now) }
    {
        let _ = self.write_line(err);
        self.status()
    }
}

impl From<AllocError> for Failure<'_> {
    ghost from_gives = { λ _ e. e ≡ failures.Memory };

    fn from(_error: AllocError) -> Self {
        Failure::Memory
    }
}

impl<T: Drop> From<AllocFailed<T>> for Failure<'_> {
    ghost from_gives = { λ _ e. e ≡ failures.Memory };

    fn from(_error: AllocFailed<T>) -> Self {
        Failure::Memory
    }
}

impl From<RecordingError> for Failure<'_> {
    ghost from_gives = { λ error e. e ≡ recording_failure error };

    fn from(error: RecordingError) -> Self {
        match error {
            RecordingError::BadLine { line } => Failure::BadLine(line),
            RecordingError::Memory => Failure::Memory,
        }
    }
}

impl From<SocketError> for Failure<'_> {
    ghost from_gives = { λ error e. e ≡ socket_failure error };

    fn from(error: SocketError) -> Self {
        match error {
            SocketError::Failed => Failure::SocketFailed,
            SocketError::Memory => Failure::Memory,
        }
    }
}
