//! What a server writes to its client.
ghost use Rattle.std.specs.Prelude.{◌≡◌, false, Err, IfOk, OnOk, OnErr};
ghost use Rattle.wl_sigs.specs.Rules.{has_server_objects};
ghost use Rattle.wl_sigs.specs.Side.TheVariants.{Event as event_side};
ghost use Rattle.wl_sigs.specs.Valid.{Valid};
ghost use Rattle.wl_objects.specs.Writing.{given};
ghost use Rattle.wl_connection.specs.Outcomes.{refusal_in};
ghost use Rattle.wl_connection.specs.Sending.{IsSendAnswer, OpensNothing, after_send, made_nothing};
ghost use Rattle.wl_connection.specs.Sending.{numbers_of, send_answer};
ghost use Rattle.wl_server.specs.State.{with_core};
ghost use Rattle.wl_server.specs.Calls.{after_drop, after_error, drop_refusal, error_refusal};
ghost use Rattle.wl_server.specs.Calls.{IsLiveOfServer, after_end, end_refusal, is_error_text};

use crate::server::Server;
use wl_connection::{Core, DELETE_ID_LEN};
use wl_object_map::{DISPLAY_ID, Maker};
use wl_objects::{Arg, DISPLAY, Object, REGISTRY, SendError, Table};
use wl_sigs::Side;

/// The longest text of an error in bytes.
const MAX_ERROR_TEXT: usize = 127;

impl<'t, T: Table> Server<'t, T> {
    /// Writes an event with these arguments, in which `New` is the object that it makes, and
    /// returns that object; an event makes one if and only if its signature has such an argument.
    /// The object has the id of the server's range that was freed last, or the next new one, and
    /// the version of the event's target. An object that the event destroys is closed, and its
    /// delete_id follows immediately: both are written, or neither.
    ///
    /// The refusals are tested in the order of their numbers: S1, S2, S3, S4, S5, S6, S8, S9, S10,
    /// S11. Only an event that makes an object returns the last two: S10 if all 1,048,575 ids of
    /// the server's range are in use or no birth is left there, S11 if there is no memory. The
    /// events of wl_display and wl_registry, which other calls write, are refused with S3.
    pub fn send(
        &mut self,
        target: Object,
        opcode: u16,
        args: &[Arg<'_>],
    ) -> Result<Option<Object>, SendError>
        ensures answer { IsSendAnswer self.old.core event_side target opcode (given args.now)
            result }
        // If no event of the tables makes an object, Ok has none, and neither S10 nor S11 is
        // returned.
        ensures nothing { has_server_objects self.old.core.tables ≡ false → OpensNothing result }
        ensures ok { OnOk result
            (self.new ≡ with_core self.old
            (after_send self.old.core event_side target opcode (given args.now))) }
        ensures err { OnErr result (self.new ≡ self.old) }
    {
        self.end.core.send(Side::Event, target, opcode, args)
    }

    /// Writes an event whose arguments are numbers alone (int, uint, fixed), given as their words,
    /// as `send` writes the same numbers. Any other event is refused with S5 at its first argument
    /// that is no number. Allocates nothing.
    pub fn send_words(
        &mut self,
        target: Object,
        opcode: u16,
        words: &[u32],
    ) -> Result<(), SendError>
        ensures answer { made_nothing result ≡ send_answer self.old.core event_side target opcode
            (given (numbers_of self.old.core event_side target opcode words.now)) }
        ensures ok { OnOk result (self.new ≡ with_core self.old
            (after_send self.old.core event_side target opcode
            (given (numbers_of self.old.core event_side target opcode words.now)))) }
        ensures err { OnErr result (self.new ≡ self.old) }
    {
        self.end.core.send_words(Side::Event, target, opcode, words)
    }

    /// Ends an object without an event, for example a callback that nobody waits for, and writes
    /// its delete_id. An object that the server made is refused with S12, since no event ends one.
    /// The refusals are tested in this order: S1, S2, S12, S9. Allocates nothing.
    pub fn drop_object(&mut self, object: Object) -> Result<(), SendError>
        ensures answer { refusal_in result ≡ drop_refusal self.old.core object }
        ensures of_server { IsLiveOfServer self.old.core object
            → result ≡ Err SendError.NotDroppable }
        ensures ok { OnOk result (self.new ≡ with_core self.old (after_drop self.old.core object)) }
        ensures err { OnErr result (self.new ≡ self.old) }
    {
        close_dropped(&mut self.end.core, object)
    }

    /// Ends an object when the caller says so, whatever its interface: closes it, and writes its
    /// delete_id if the client made it. For tables that mark no request as destroying, where the
    /// caller knows what a request destroys and when. wl_display and registries are refused with
    /// S12. The refusals are tested in this order: S1, S2, S12, S9. Allocates nothing.
    ///
    /// What is proved about two ends together does not cover this call: the client may have written
    /// requests to the object, or requests that name it.
    pub fn end_object(&mut self, object: Object) -> Result<(), SendError>
        ensures answer { refusal_in result ≡ end_refusal self.old.core object }
        ensures ok { OnOk result (self.new ≡ with_core self.old (after_end self.old.core object)) }
        ensures err { OnErr result (self.new ≡ self.old) }
    {
        close_ended(&mut self.end.core, object)
    }

    /// Ends the connection with an error about an object, for which there is always room. The
    /// server has failed afterwards. The refusals are tested in this order: S1, S2, and S5 if the
    /// text has more than 127 bytes or a byte 0. Allocates nothing.
    pub fn post_error(&mut self, object: Object, code: u32, text: &[u8]) -> Result<(), SendError>
        ensures answer { refusal_in result ≡ error_refusal self.old.core object text.now }
        ensures ok { OnOk result
            (self.new ≡ with_core self.old (after_error self.old.core object code text.now)) }
        ensures err { OnErr result (self.new ≡ self.old) }
    {
        if self.end.core.failed {
            return Err(SendError::Failed);
        }
        if self.end.core.live(object).is_none() {
            return Err(SendError::Stale);
        }
        if !is_error_text(text) {
            return Err(SendError::WrongArgs(2));
        }
        self.end.core.write_error(object.id, code, text);
        Ok(())
    }
}

/// Ends an object of an end without an event.
fn close_dropped<T: Table>(core: &mut Core<'_, T>, object: Object) -> Result<(), SendError>
    ensures answer { refusal_in result ≡ drop_refusal core.old object }
    ensures ok { OnOk result (core.new ≡ after_drop core.old object) }
    ensures err { OnErr result (core.new ≡ core.old) }
    // Tables are always valid; a proof learns this from a call that read them.
    ensures valid { IfOk result (λ _. Valid core.old.tables) }
{
    if core.failed {
        return Err(SendError::Failed);
    }
    let Some((iface, _)) = core.live(object) else {
        return Err(SendError::Stale);
    };
    if !core.tables.ends_by_event(iface) {
        return Err(SendError::NotDroppable);
    }
    if !core.fits(DELETE_ID_LEN, 0) {
        return Err(SendError::Full);
    }
    core.delete_object(object.id);
    Ok(())
}

/// Ends an object of an end, whatever its interface.
fn close_ended<T: Table>(core: &mut Core<'_, T>, object: Object) -> Result<(), SendError>
    ensures answer { refusal_in result ≡ end_refusal core.old object }
    ensures ok { OnOk result (core.new ≡ after_end core.old object) }
    ensures err { OnErr result (core.new ≡ core.old) }
{
    if core.failed {
        return Err(SendError::Failed);
    }
    let Some((iface, _)) = core.live(object) else {
        return Err(SendError::Stale);
    };
    if object.id == DISPLAY_ID || iface == DISPLAY || iface == REGISTRY {
        return Err(SendError::NotDroppable);
    }
    match Maker::of(object.id) {
        Maker::Client if !core.fits(DELETE_ID_LEN, 0) => return Err(SendError::Full),
        Maker::Client => core.delete_object(object.id),
        Maker::Server => core.close(object.id),
    }
    Ok(())
}

/// Whether an error can have this text.
fn is_error_text(text: &[u8]) -> bool
    ensures { result ≡ is_error_text text.now }
{
    text.len() <= MAX_ERROR_TEXT && !text.contains(&0)
}
