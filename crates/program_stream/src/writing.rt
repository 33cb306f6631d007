//! Writing bytes, all of them or until the writer fails.
ghost use Rattle.std.specs.Prelude.{OnOk, ◌++◌};
ghost use Rattle.std.specs.Io.KnownBytes.{Appends};
ghost use Rattle.program_stream.specs.Writing.{AppendsFront};

use std::io::{self, ErrorKind, Write};

/// Writes all the bytes. If a write fails or takes nothing, only a front part of them was written.
/// An interrupted write is repeated.
pub fn write_whole<O: Write>(out: &mut O, bytes: &[u8]) -> io::Result<()>
    ensures whole { OnOk result (Appends (O.contents out.old) (O.contents out.new) bytes.now) }
    ensures front { AppendsFront (O.contents out.old) (O.contents out.new) bytes.now }
{
    let mut at = 0;
    'writes: for _ in 0..u64::MAX {
        if at >= bytes.len() {
            return Ok(());
        }
        match out.write(&bytes[at..]) {
            Ok(0) => return Err(io::Error::from(ErrorKind::WriteZero)),
            Ok(n) => at += n,
            Err(error) => {
                if error.kind() != ErrorKind::Interrupted {
                    return Err(error);
                }
            }
        }
    }
    Err(io::Error::from(ErrorKind::Interrupted))
}

/// Writes three texts, one after another. If that fails, only a front part of them was written.
pub fn write_three<O: Write>(out: &mut O, first: &str, second: &str, third: &str) -> io::Result<()>
    ensures whole { OnOk result (Appends (O.contents out.old) (O.contents out.new)
        (first.now ++ (second.now ++ third.now))) }
    ensures front { AppendsFront (O.contents out.old) (O.contents out.new)
        (first.now ++ (second.now ++ third.now)) }
{
    write_whole(out, first.as_bytes())?;
    write_whole(out, second.as_bytes())?;
    write_whole(out, third.as_bytes())
}

/// Writes all the bytes and flushes the writer. If that fails, only a front part of them was
/// written.
pub fn write_through<O: Write>(out: &mut O, bytes: &[u8]) -> io::Result<()>
    ensures whole { OnOk result (Appends (O.contents out.old) (O.contents out.new) bytes.now) }
    ensures front { AppendsFront (O.contents out.old) (O.contents out.new) bytes.now }
{
    write_whole(out, bytes)?;
    out.flush()
}
