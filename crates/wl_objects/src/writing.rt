//! Messages made from a call's arguments.
ghost use Rattle.std.specs.Prelude.{◌≡◌, ◌≤◌, ◌+◌, ◌++◌, length, take, drop};
ghost use Rattle.wl_wire.specs.Argument.{lent, NewNamed};
ghost use Rattle.wl_wire.specs.Word.{header_bytes};
ghost use Rattle.wl_sigs.specs.Tables.{max_args};
ghost use Rattle.wl_objects.specs.Writing.{given, given_of, wired, on_wire, message_len};
ghost use Rattle.wl_objects.specs.Writing.{message_bytes, tokens_of, call_message};
ghost use Rattle.wl_objects.specs.Writing.{BindFits, CallFits, EachFits, values_of_bind};

use crate::argument::Arg;
use crate::calling::message_len;
use byteorder::{ByteOrder, LittleEndian};
use wl_sigs::MAX_ARGS;
use wl_sigs::request::wl_registry::BIND;
use wl_wire::{Encode, HEADER_LEN, Header, ValueRef, write_value};

/// Where a bind's new object begins: after the header and the name.
const BOUND_AT: usize = HEADER_LEN + 4;

/// The argument on the wire, given the new object's id.
pub(crate) fn wired<'a>(arg: &Arg<'a>, new_id: u32) -> ValueRef<'a>
    ensures { lent result ≡ wired new_id (given_of arg.now) }
{
    match arg {
        Arg::Int(number) => ValueRef::Int(*number),
        Arg::Uint(number) => ValueRef::Uint(*number),
        Arg::Fixed(number) => ValueRef::Fixed(*number),
        Arg::Str(text) => ValueRef::Str(*text),
        Arg::Obj(None) => ValueRef::Obj(0),
        Arg::Obj(Some(object)) => ValueRef::Obj(object.id),
        Arg::New => ValueRef::New(new_id),
        Arg::Array(bytes) => ValueRef::Array(*bytes),
        Arg::Fd(_) => ValueRef::Fd,
    }
}

/// The message made from a call, given the new object's id.
#[derive(Clone, Copy, Debug)]
pub struct CallMessage<'a> {
    /// The id of the message's target.
    pub object: u32,
    pub opcode: u16,
    pub args: &'a [Arg<'a>],
    pub new_id: u32,
    /// Its length in bytes.
    pub len: usize,
}

impl<'a> CallMessage<'a> {
    /// A message that makes no object; its length must fit in a header.
    pub fn new(object: u32, opcode: u16, args: &'a [Arg<'a>]) -> CallMessage<'a>
        requires fits { EachFits (on_wire 0 args.now) }
        requires short { message_len (on_wire 0 args.now) ≤ 65535 }
        ensures message { call_message result
            ≡ message_bytes object opcode (on_wire 0 args.now) }
        ensures args { result.args.now ≡ args.now }
        ensures len { result.len ≡ message_len (on_wire 0 args.now) }
        ensures fits { CallFits result }
    {
        CallMessage {
            object,
            opcode,
            args,
            new_id: 0,
            len: message_len(args),
        }
    }
}

impl<'a> Encode for CallMessage<'a> {
    ghost use Rattle.wl_objects.specs.Writing.{call_message, CallFits};

    ghost message = { λ call. call_message call };

    ghost fits = { λ call. CallFits call };

    #[tactic(auto, using(crate::proofs::Written::call_len))]
    fn encoded_len(&self) -> usize {
        self.len
    }

    #[inline(always)]
    fn encode(&self, out: &mut [u8]) {
        write_header(out, self.object, self.len, self.opcode);
        let mut at = HEADER_LEN;
        'arguments: for arg in self.args {
            at += write_value(wired(arg, self.new_id), &mut out[at..]);
        }
    }
}

/// A message whose arguments are numbers alone, given as their words.
#[derive(Clone, Copy, Debug)]
pub struct WordsMessage<'a> {
    /// The id of the message's target.
    pub object: u32,
    pub opcode: u16,
    pub words: &'a [u32],
}

impl<'a> Encode for WordsMessage<'a> {
    ghost use Rattle.wl_objects.specs.Writing.{words_message, WordsFit};

    ghost message = { λ message. words_message message };

    ghost fits = { λ message. WordsFit message };

    fn encoded_len(&self) -> usize {
        HEADER_LEN + 4 * self.words.len()
    }

    #[inline(always)]
    fn encode(&self, out: &mut [u8]) {
        write_header(out, self.object, out.len(), self.opcode);
        LittleEndian::write_u32_into(self.words, &mut out[HEADER_LEN..]);
    }
}

/// wl_registry.bind.
#[derive(Clone, Copy, Debug)]
pub struct BindMessage<'a> {
    /// The id of the registry.
    pub registry: u32,
    pub name: u32,
    pub iface: &'a [u8],
    pub version: u32,
    pub id: u32,
}

impl<'a> Encode for BindMessage<'a> {
    ghost use Rattle.wl_objects.specs.Writing.{bind_message, BindFits};

    ghost message = { λ bind. bind_message bind };

    ghost fits = { λ bind. BindFits bind };

    #[tactic(auto, using(crate::proofs::Written::bind_len))]
    fn encoded_len(&self) -> usize {
        self.len()
    }

    fn encode(&self, out: &mut [u8]) {
        write_header(out, self.registry, self.encoded_len(), BIND);
        write_value(ValueRef::Uint(self.name), &mut out[HEADER_LEN..BOUND_AT]);
        write_value(self.named(), &mut out[BOUND_AT..]);
    }
}

impl<'a> BindMessage<'a> {
    /// Its length in bytes, whatever its id.
    pub fn len(&self) -> usize
        requires { BindFits self.now }
        ensures { result ≡ message_len (values_of_bind self.now) }
    {
        BOUND_AT + self.named().spelled_len()
    }

    /// The new object, with the interface and version that the bind names.
    fn named(&self) -> ValueRef<'a>
        ensures { lent result
            ≡ NewNamed self.now.iface.now self.now.version self.now.id }
    {
        ValueRef::NewNamed {
            iface: self.iface,
            version: self.version,
            id: self.id,
        }
    }
}

/// Writes a header over the first eight bytes.
fn write_header(out: &mut [u8], object: u32, size: usize, opcode: u16)
    requires size { size ≤ 65535 }
    requires room { 8 ≤ length out.old }
    ensures { out.new ≡ header_bytes (record { object = object; size = size; opcode = opcode })
        ++ drop 8 out.old }
{
    let header = Header {
        object,
        size: size as u16,
        opcode,
    };
    header.write(out);
}

/// Writes the tokens of a call, in order, and returns their number.
pub fn take_tokens(args: &[Arg<'_>], tokens: &mut [u32; MAX_ARGS]) -> usize
    requires few { length args.now ≤ max_args }
    ensures tokens { take result tokens.new ≡ tokens_of (given args.now) }
    ensures few { result ≤ length args.now }
{
    let mut count = 0;
    'arguments: for arg in args {
        if let Arg::Fd(token) = arg {
            tokens[count] = *token;
            count += 1;
        }
    }
    count
}
