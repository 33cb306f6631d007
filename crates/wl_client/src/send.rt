//! What a client writes.
ghost use Rattle.std.specs.Prelude.{◌≡◌, OnErr, OnOk};
ghost use Rattle.wl_sigs.specs.Side.TheVariants.{Request as request_side};
ghost use Rattle.wl_objects.specs.Writing.{given};
ghost use Rattle.wl_connection.specs.Sending.{IsSendAnswer, after_send, made_nothing, numbers_of};
ghost use Rattle.wl_connection.specs.Sending.{send_answer};
ghost use Rattle.wl_client.specs.State.{with_core};

use crate::client::Client;
use wl_objects::{Arg, Object, SendError, Table};
use wl_sigs::Side;

impl<'t, T: Table> Client<'t, T> {
    /// Writes a request with these arguments, in which `New` is the object that it makes, and
    /// returns that object. An object that the request destroys is a zombie afterwards.
    ///
    /// The refusals are tested in the order of their numbers: S1, S2, S3, S4, S5, S6, S8, S9, S10,
    /// S11. wl_registry.bind is refused with S3.
    pub fn send(
        &mut self,
        target: Object,
        opcode: u16,
        args: &[Arg<'_>],
    ) -> Result<Option<Object>, SendError>
        ensures answer { IsSendAnswer self.old.core request_side target opcode (given args.now)
            result }
        ensures ok { OnOk result
            (self.new ≡ with_core self.old
            (after_send self.old.core request_side target opcode (given args.now))) }
        ensures err { OnErr result (self.new ≡ self.old) }
    {
        self.end.core.send(Side::Request, target, opcode, args)
    }

    /// Writes a request whose arguments are numbers alone (int, uint, fixed), given as their words,
    /// as `send` writes the same numbers. Any other request is refused with S5 at its first
    /// argument that is no number. Allocates nothing.
    pub fn send_words(
        &mut self,
        target: Object,
        opcode: u16,
        words: &[u32],
    ) -> Result<(), SendError>
        ensures answer { made_nothing result ≡ send_answer self.old.core request_side target opcode
            (given (numbers_of self.old.core request_side target opcode words.now)) }
        ensures ok { OnOk result (self.new ≡ with_core self.old
            (after_send self.old.core request_side target opcode
            (given (numbers_of self.old.core request_side target opcode words.now)))) }
        ensures err { OnErr result (self.new ≡ self.old) }
    {
        self.end
            .core
            .send_words(Side::Request, target, opcode, words)
    }
}
