//! The destination of a printed line.
ghost use Rattle.std.specs.Prelude.{◌≡◌, ◌++◌, OnOk, List, ℕ, [], ◌∷◌, codes};
ghost use Rattle.std.specs.Fmt.{decimal};
ghost use Rattle.wl_wire.specs.Argument.{units};
ghost use Rattle.wl_wire.specs.Units.{fixed_text};

use crate::memory::{write_fixed, write_id, write_number};
use itoa::{Buffer, Integer};
use std::alloc::{AllocError, Allocator};
use std::fmt::{self, Formatter};
use std::str;
use wl_wire::Fixed;

/// Takes the bytes of a line: bytes in memory, or a formatter.
pub(crate) trait Sink {
    type Error;

    /// The second is the first after it took these bytes.
    ghost takes: { Self → List ℕ → Self → Type 0 };

    /// Writes bytes. A formatter takes only text: the bytes must be UTF-8.
    fn write_bytes(&mut self, bytes: &[u8]) -> Result<(), Self::Error>
        ensures { OnOk result (takes self.old bytes.now self.new) };

    fn write_byte(&mut self, byte: u8) -> Result<(), Self::Error>
        ensures { OnOk result (takes self.old (byte ∷ []) self.new) };

    /// Writes a number in decimal.
    fn write_number<I: Integer>(&mut self, number: I) -> Result<(), Self::Error>
        ensures { OnOk result (takes self.old (I.text number) self.new) };

    /// Writes a fixed-point number: its sign, its whole part, a point, and its decimals.
    fn write_fixed(&mut self, number: Fixed) -> Result<(), Self::Error>
        ensures { OnOk result (takes self.old (fixed_text (units number)) self.new) };

    /// Writes an `@` and the id of an object.
    fn write_id(&mut self, id: u32) -> Result<(), Self::Error>
        ensures { OnOk result (takes self.old (codes "@" ++ decimal id) self.new) };

    ghost nothing: { (s : Self) → takes s [] s };

    ghost then: { (s t u : Self) (a b : List ℕ) → takes s a t → takes t b u → takes s (a ++ b) u };
}

impl<A: Allocator> Sink for Vec<u8, A> {
    ghost use Rattle.std.proofs.Common.{rules};
    ghost use Rattle.std.proofs.lemmas.Grind.{common_steps};

    type Error = AllocError;

    ghost takes = { λ s bytes t. t.items ≡ s.items ++ bytes };

    ghost nothing = { λ s. Prim.search (rules, common_steps) };

    ghost then = { λ s t u a b first second.
        Prim.search (rules, common_steps, first, second) };

    fn write_bytes(&mut self, bytes: &[u8]) -> Result<(), AllocError> {
        self.extend_from_slice(bytes)
    }

    fn write_byte(&mut self, byte: u8) -> Result<(), AllocError> {
        self.push(byte)?;
        Ok(())
    }

    fn write_number<I: Integer>(&mut self, number: I) -> Result<(), AllocError> {
        write_number(self, number)
    }

    fn write_fixed(&mut self, number: Fixed) -> Result<(), AllocError> {
        write_fixed(self, number)
    }

    fn write_id(&mut self, id: u32) -> Result<(), AllocError> {
        write_id(self, id)
    }
}

impl<W: fmt::Write> Sink for Formatter<W> {
    ghost use Rattle.std.proofs.Common.{rules};
    ghost use Rattle.std.proofs.lemmas.Grind.{common_steps};
    ghost use Rattle.std.specs.Fmt.{HasWritten, IsPlainFormatter};

    type Error = fmt::Error;

    ghost takes = { λ f bytes g. IsPlainFormatter f → HasWritten W.write_str_gives f bytes g };

    ghost nothing = { λ f plain. Prim.search (rules, common_steps, plain) };

    ghost then = { λ f g h a b first second plain.
        Prim.grind (rules, common_steps, first plain, second (first plain).plain) };

    fn write_bytes(&mut self, bytes: &[u8]) -> fmt::Result {
        match str::from_utf8(bytes) {
            Ok(text) => self.write_str(text),
            Err(_) => Err(fmt::Error),
        }
    }

    fn write_byte(&mut self, byte: u8) -> fmt::Result {
        self.write_bytes(&[byte])
    }

    fn write_number<I: Integer>(&mut self, number: I) -> fmt::Result {
        let mut buffer = Buffer::new();
        self.write_str(buffer.format(number))
    }

    fn write_fixed(&mut self, number: Fixed) -> fmt::Result {
        write!(self, "{number}")
    }

    fn write_id(&mut self, id: u32) -> fmt::Result {
        write!(self, "@{id}")
    }
}
