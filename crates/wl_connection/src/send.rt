//! What an end writes.
ghost use Rattle.std.specs.Prelude.{[], ◌≡◌, ◌≢◌, ◌≤◌, false, true, Some, IfOk};
ghost use Rattle.std.specs.Prelude.{IsTrue, OnErr, OnOk, length};
ghost use Rattle.wl_sigs.specs.Side.TheVariants.{Event as event_side};
ghost use Rattle.wl_sigs.specs.Rules.{has_server_objects};
ghost use Rattle.wl_sigs.specs.Tables.{destroys_one, max_args};
ghost use Rattle.wl_sigs.specs.Valid.{Valid};
ghost use Rattle.wl_message.specs.Cut.{usual_limit};
ghost use Rattle.wl_objects.specs.Messages.{destroys, ended_id};
ghost use Rattle.wl_object_map.specs.Objects.{ObjectsAreSound, closed, is_held, is_live};
ghost use Rattle.wl_object_map.specs.Objects.{next_id, opened_at};
ghost use Rattle.wl_objects.specs.Writing.{CallFits, EachFits, bind_values, given, has_no_nul};
ghost use Rattle.wl_objects.specs.Writing.{WordsFit, message_len, on_wire, tokens_of};
ghost use Rattle.wl_objects.specs.Writing.{words_on_wire};
ghost use Rattle.wl_connection.specs.Core.{with_view};
ghost use Rattle.wl_connection.specs.Outcomes.{AnswersOrMemory, some_object};
ghost use Rattle.wl_connection.specs.Sending.{IsSendAnswer, OpensNothing, after_send};
ghost use Rattle.wl_connection.specs.Sending.{delete_id_len, fits, max_error_text};
ghost use Rattle.wl_connection.specs.Sending.{following, following_len, next_object, made_nothing};
ghost use Rattle.wl_connection.specs.Sending.{numbers_of, send_answer};
ghost use Rattle.wl_connection.specs.Sending.{opening_answer, with_delete_id, with_error_event};
ghost use Rattle.wl_connection.specs.Sending.{with_following, with_sent};

use crate::receive::MAX_TOKENS;
use crate::shared::Core;
use wl_object_map::{DISPLAY_ID, Maker};
use wl_objects::{
    Arg, BindMessage, CallMessage, Object, SendError, SideTables, Table, TableError, WordsMessage,
    check_call, check_words, maker_by, take_tokens,
};
use wl_sigs::event::wl_display::{DELETE_ID, ERROR};
use wl_sigs::{Destroys, Side};
use wl_wire::{HEADER_LEN, Iface};

/// The length of wl_display.delete_id in bytes: a header and an id.
pub const DELETE_ID_LEN: usize = HEADER_LEN + 4;

/// How many bytes the delete_id has that follows a destroying event; 0 if none follows.
#[inline(always)]
fn following_len(side: Side, what: Destroys) -> usize
    ensures { result ≡ following_len side what }
{
    match (side, what) {
        (Side::Event, Destroys::Target | Destroys::Arg(_)) => DELETE_ID_LEN,
        _ => 0,
    }
}

impl<'t, T: Table> Core<'t, T> {
    /// Whether this number of bytes and tokens is free in the outbox.
    pub fn fits(&self, bytes: usize, tokens: usize) -> bool
        ensures { result ≡ fits self.now.outbox bytes tokens }
    {
        bytes <= self.outbox.room() && tokens <= self.outbox.token_room()
    }

    /// Closes an object, so that its id is free again, and writes wl_display.delete_id to the
    /// client. 12 bytes must be free.
    pub fn delete_object(&mut self, id: u32)
        requires held { IsTrue (is_held self.old.view id) }
        requires not_display { id ≢ 1 }
        requires room { IsTrue (fits self.old.outbox delete_id_len 0) }
        ensures { self.new ≡ with_delete_id (with_view self.old (closed self.old.view id)) id }
    {
        self.close(id);
        self.write_delete_id(id);
    }

    /// Writes wl_display.delete_id. 12 bytes must be free.
    fn write_delete_id(&mut self, id: u32)
        requires { IsTrue (fits self.old.outbox delete_id_len 0) }
        ensures { self.new ≡ with_delete_id self.old id }
    {
        let args = [Arg::Uint(id)];
        self.write_call(&CallMessage::new(DISPLAY_ID, DELETE_ID, &args), 0);
    }

    /// Writes wl_display.error about an object with this id, into the room reserved for it. The end
    /// has failed afterwards.
    pub fn write_error(&mut self, object: u32, code: u32, text: &[u8])
        requires open { self.old.failed ≡ false }
        requires text { IsTrue (has_no_nul text.now) }
        requires short { length text.now ≤ max_error_text }
        ensures { self.new ≡ with_error_event self.old object code text.now }
    {
        // Only the id of the object is written.
        let object = Object {
            id: object,
            birth: 0,
        };
        let args = [
            Arg::Obj(Some(object)),
            Arg::Uint(code),
            Arg::Str(Some(text)),
        ];
        let message = CallMessage::new(DISPLAY_ID, ERROR, &args);
        self.outbox.push_encoded_error(&message, &mut self.store);
        self.failed = true;
    }

    /// Writes wl_registry.bind, which must fit.
    pub fn write_bind(&mut self, registry: u32, name: u32, iface: &[u8], version: u32, id: u32)
        requires fits { EachFits (bind_values name iface.now version id) }
        requires len { message_len (bind_values name iface.now version id) ≤ usual_limit }
        requires room { IsTrue
            (fits self.old.outbox (message_len (bind_values name iface.now version id)) 0) }
        ensures { self.new ≡ with_sent self.old registry 0
            (bind_values name iface.now version id) [] }
    {
        let message = BindMessage {
            registry,
            name,
            iface,
            version,
            id,
        };
        self.outbox.push_encoded(&message, &[], &mut self.store);
    }

    /// Opens an object of this maker at its next id. S10 is tested before S11.
    pub fn open_next(
        &mut self,
        maker: Maker,
        iface: Iface,
        version: u32,
    ) -> Result<Object, SendError>
        requires { ObjectsAreSound self.old.view }
        ensures answer { AnswersOrMemory SendError.Memory true
            (opening_answer self.old maker (next_object maker self.old.view version (Some iface)))
            (some_object result) }
        ensures ok { OnOk result
            (self.new ≡ with_view self.old
            (opened_at self.old.view (next_id maker self.old.view) iface version)) }
        ensures id { IfOk result (λ object. object.id ≡ next_id maker self.old.view) }
        ensures err { OnErr result (self.new ≡ self.old) }
    {
        match self.objects.open_next(maker, iface, version) {
            Ok(object) => Ok(object),
            Err(TableError::Memory) => Err(SendError::Memory),
            Err(_) => Err(SendError::NoIds),
        }
    }

    /// Writes the message made from a call; this number of tokens goes with it. It must fit.
    #[inline(always)]
    pub fn write_call(&mut self, message: &CallMessage<'_>, tokens: usize)
        requires fits { CallFits message.now }
        requires few { length message.now.args.now ≤ max_args }
        requires short { message.now.len ≤ self.old.outbox.limit.bytes }
        requires tokens { tokens ≡ length (tokens_of (given message.now.args.now)) }
        requires room { IsTrue (fits self.old.outbox message.now.len tokens) }
        ensures { self.new ≡ with_sent self.old message.now.object message.now.opcode
            (on_wire message.now.new_id message.now.args.now)
            (tokens_of (given message.now.args.now)) }
    {
        if tokens == 0 {
            self.outbox.push_encoded(message, &[], &mut self.store);
            return;
        }
        let mut places = [0; MAX_TOKENS];
        let count = take_tokens(message.args, &mut places);
        self.outbox
            .push_encoded(message, &places[..count], &mut self.store);
    }

    /// Ends the object that a message destroys, if it destroys one. At a client it becomes a
    /// zombie; at a server its id is free again, and delete_id follows.
    fn end_object(&mut self, side: Side, what: Destroys, target: u32, args: &[Arg<'_>])
        requires live { IsTrue (is_live self.old.view (ended_id what target (on_wire 0 args.now))) }
        requires other { destroys_one what ≡ true
            → ended_id what target (on_wire 0 args.now) ≢ 1 }
        requires room { IsTrue (fits self.old.outbox (following_len side what) 0) }
        ensures { let id = ended_id what target (on_wire 0 args.now) in
            self.new ≡ with_following (following side what) id
            (with_view self.old (destroys side what id self.old.view)) }
    {
        let id = match what {
            Destroys::Nothing => return,
            Destroys::Target => target,
            Destroys::Arg(place) => match args.get(place) {
                Some(Arg::Obj(Some(object))) => object.id,
                // No object, which `check_call` refuses.
                _ => 0,
            },
        };
        match side {
            Side::Request => self.make_zombie(id),
            Side::Event => self.delete_object(id),
        }
    }

    /// Writes a message with these arguments, in which `New` is the object that it makes, and
    /// returns that object. What the message destroys is ended at once; after an event that
    /// destroys, delete_id is written too.
    ///
    /// The refusals are tested in the order of their numbers: S1, S2, S3, S4, S5, S6, S8, S9, S10,
    /// S11. A message that another call writes is refused with S3.
    pub fn send(
        &mut self,
        side: Side,
        target: Object,
        opcode: u16,
        args: &[Arg<'_>],
    ) -> Result<Option<Object>, SendError>
        ensures answer { IsSendAnswer self.old side target opcode (given args.now) result }
        // An event makes an object only if the tables have such events.
        ensures event { side ≡ event_side → has_server_objects self.old.tables ≡ false
            → OpensNothing result }
        ensures ok { OnOk result
            (self.new ≡ after_send self.old side target opcode (given args.now)) }
        ensures err { OnErr result (self.new ≡ self.old) }
        // Tables are always valid; a proof learns this from a call that read them.
        ensures valid { IfOk result (λ _. Valid self.old.tables) }
        ensures sound { IfOk result (λ _. ObjectsAreSound self.old.view) }
    {
        if self.failed {
            return Err(SendError::Failed);
        }
        let limit = self.outbox.limit().bytes;
        let writer = SideTables {
            tables: self.tables,
            side,
        };
        let call = check_call(writer, &self.objects, target, opcode, args, limit)?;
        let signature = call.signature;
        let what = signature.destroys;
        // A delete_id follows a destroying event.
        let following = match (side, what) {
            (Side::Event, Destroys::Target | Destroys::Arg(_)) => DELETE_ID_LEN,
            _ => 0,
        };
        if !self.fits(call.len + following, call.tokens) {
            return Err(SendError::Full);
        }
        let new = match call.makes {
            Some(iface) => Some(self.open_next(maker_by(side), iface, call.entry.version)?),
            None => None,
        };
        let message = CallMessage {
            object: target.id,
            opcode,
            args,
            new_id: new.map_or(0, |object| object.id),
            len: call.len,
        };
        self.write_call(&message, call.tokens);
        self.end_object(side, what, target.id, args);
        Ok(new)
    }
    /// Writes the message that has these words as its arguments. It must fit.
    #[inline(always)]
    fn write_words(&mut self, message: &WordsMessage<'_>)
        requires fits { WordsFit message.now }
        requires short { message_len (words_on_wire message.now.words.now)
            ≤ self.old.outbox.limit.bytes }
        requires room { IsTrue
            (fits self.old.outbox (message_len (words_on_wire message.now.words.now)) 0) }
        ensures { self.new ≡ with_sent self.old message.now.object message.now.opcode
            (words_on_wire message.now.words.now) [] }
    {
        self.outbox.push_encoded(message, &[], &mut self.store);
    }

    /// Writes a message whose arguments are numbers alone, given as their words, and does what
    /// `send` does of these numbers. Any other message is refused with S5 at its first argument
    /// that is no number. Allocates nothing.
    pub fn send_words(
        &mut self,
        side: Side,
        target: Object,
        opcode: u16,
        words: &[u32],
    ) -> Result<(), SendError>
        ensures answer { made_nothing result ≡ send_answer self.old side target opcode
            (given (numbers_of self.old side target opcode words.now)) }
        ensures ok { OnOk result (self.new ≡ after_send self.old side target opcode
            (given (numbers_of self.old side target opcode words.now))) }
        ensures err { OnErr result (self.new ≡ self.old) }
        // Tables are always valid; a proof learns this from a call that read them.
        ensures valid { IfOk result (λ _. Valid self.old.tables) }
        ensures sound { IfOk result (λ _. ObjectsAreSound self.old.view) }
    {
        if self.failed {
            return Err(SendError::Failed);
        }
        let limit = self.outbox.limit().bytes;
        let writer = SideTables {
            tables: self.tables,
            side,
        };
        let signature = check_words(writer, &self.objects, target, opcode, words, limit)?;
        let what = signature.destroys;
        let len = HEADER_LEN + 4 * words.len();
        if !self.fits(len + following_len(side, what), 0) {
            return Err(SendError::Full);
        }
        let message = WordsMessage {
            object: target.id,
            opcode,
            words,
        };
        self.write_words(&message);
        // No word names the object that a message destroys.
        self.end_object(side, what, target.id, &[]);
        Ok(())
    }
}
