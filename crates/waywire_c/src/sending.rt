//! An end writes a message, and C gets the result.
ghost use Rattle.std.specs.Prelude.{◌≡◌, ◌≢◌, length, take, IfSome, OnOk, OnErr};
ghost use Rattle.wl_objects.specs.Writing.{given};
ghost use Rattle.wl_connection.specs.Sending.{after_send, made_nothing, IsSendAnswer};
ghost use Rattle.waywire_c.specs.Ends.{core_of, end_with_core, writes};
ghost use Rattle.waywire_c.specs.Calls.{after_words, made_left, place_left, words_answer};
ghost use Rattle.waywire_c.specs.Calls.{SendTells};
ghost use Rattle.waywire_c.specs.Statuses.{made_outcome};
ghost use Rattle.waywire_c.specs.Values.{all_given, given_in, object_from_c};

use crate::held::HeldEnd;
use crate::statuses::{BAD_VALUE, OK, send_place, send_status};
use crate::values::{CObject, CallArg, MAX_GIVEN, put_args};
use wl_objects::{Arg, Object, SendError};

/// The most arguments of a call with few arguments, as most calls are: only this many slots are
/// initialised for it.
const FEW: usize = 6;

/// The contents of a slot before an argument is put in.
const BLANK: Arg<'static> = Arg::Int(0);

/// A call that C makes.
#[derive(Clone, Copy)]
pub struct Call<'a, 'b> {
    pub target: Object,
    pub opcode: u16,
    pub args: &'a [CallArg<'b>],
}

/// Writes the new object to `made`, or the index of the refused argument to `place`. Returns the
/// status.
#[inline(always)]
fn put_made(answer: Result<Option<Object>, SendError>, made: &mut CObject, place: &mut usize) -> u32
    ensures status { result ≡ made_outcome answer }
    ensures made { object_from_c made.new ≡ made_left (object_from_c made.old) answer }
    ensures place { place.new ≡ place_left place.old answer }
{
    match answer {
        Ok(new) => {
            *made = new.map_or(CObject::none(), CObject::of);
            OK
        }
        Err(why) => {
            if let Some(refused) = send_place(why) {
                *place = refused;
            }
            send_status(why)
        }
    }
}

/// An end writes a message.
#[inline(always)]
fn write(
    end: &mut HeldEnd,
    target: Object,
    opcode: u16,
    args: &[Arg<'_>],
) -> Result<Option<Object>, SendError>
    ensures answer { IsSendAnswer (core_of end.old) (writes end.old) target opcode (given args.now)
        result }
    ensures ok { OnOk result (end.new ≡ end_with_core end.old
        (after_send (core_of end.old) (writes end.old) target opcode (given args.now))) }
    ensures err { OnErr result (end.new ≡ end.old) }
{
    match end {
        HeldEnd::Client(client) => client.send(target, opcode, args),
        HeldEnd::Server(server) => server.send(target, opcode, args),
    }
}

/// An end writes a message for C. Returns the status.
#[inline(always)]
#[tactic(auto, using(crate::proofs::GivenArguments::few_given))]
pub fn send(end: &mut HeldEnd, call: &Call<'_, '_>, made: &mut CObject, place: &mut usize) -> u32
    ensures answer { SendTells (core_of end.old) (writes end.old) call.now.target
        call.now.opcode (given_in call.now.args.now) result (object_from_c made.old)
        (object_from_c made.new) place.old place.new }
    ensures state { result ≡ 0
        → IfSome (given_in call.now.args.now) (λ given. end.new ≡ end_with_core end.old
        (after_send (core_of end.old) (writes end.old) call.now.target call.now.opcode given)) }
    ensures unchanged { result ≢ 0 → end.new ≡ end.old }
{
    if call.args.len() <= FEW {
        return put_call(end, call, &mut [BLANK; FEW], made, place);
    }
    send_long(end, *call, made, place)
}

/// As `send`, for a call with any number of arguments. It takes a copy of the call, so that a call
/// with few arguments need not be in memory.
#[inline(never)]
fn send_long(end: &mut HeldEnd, call: Call<'_, '_>, made: &mut CObject, place: &mut usize) -> u32
    ensures answer { SendTells (core_of end.old) (writes end.old) call.entry.target
        call.entry.opcode (given_in call.entry.args.now) result (object_from_c made.old)
        (object_from_c made.new) place.old place.new }
    ensures state { result ≡ 0
        → IfSome (given_in call.entry.args.now) (λ given. end.new ≡ end_with_core end.old
        (after_send (core_of end.old) (writes end.old) call.entry.target call.entry.opcode given)) }
    ensures unchanged { result ≢ 0 → end.new ≡ end.old }
{
    put_call(end, &call, &mut [BLANK; MAX_GIVEN], made, place)
}

/// As `send`, using these slots for as many arguments as there are slots.
#[inline(always)]
fn put_call<'b>(
    end: &mut HeldEnd,
    call: &Call<'_, 'b>,
    slots: &mut [Arg<'b>],
    made: &mut CObject,
    place: &mut usize,
) -> u32
    ensures answer { SendTells (core_of end.old) (writes end.old) call.now.target
        call.now.opcode (all_given (take (length slots.old) call.now.args.now)) result
        (object_from_c made.old) (object_from_c made.new) place.old place.new }
    ensures state { result ≡ 0
        → IfSome (all_given (take (length slots.old) call.now.args.now)) (λ given.
        end.new ≡ end_with_core end.old
        (after_send (core_of end.old) (writes end.old) call.now.target call.now.opcode given)) }
    ensures unchanged { result ≢ 0 → end.new ≡ end.old }
{
    let Some(count) = put_args(call.args, slots) else {
        return BAD_VALUE;
    };
    let answer = write(end, call.target, call.opcode, &slots[..count]);
    put_made(answer, made, place)
}

/// As `write`, for a message whose arguments are numbers alone, given as their words.
#[inline(always)]
fn write_words(
    end: &mut HeldEnd,
    target: Object,
    opcode: u16,
    words: &[u32],
) -> Result<(), SendError>
    ensures answer { made_nothing result ≡ words_answer end.old target opcode words.now }
    ensures ok { OnOk result (end.new ≡ after_words end.old target opcode words.now) }
    ensures err { OnErr result (end.new ≡ end.old) }
{
    match end {
        HeldEnd::Client(client) => client.send_words(target, opcode, words),
        HeldEnd::Server(server) => server.send_words(target, opcode, words),
    }
}

/// Writes the index of the refused argument to `place`, and returns the status.
#[inline(always)]
fn put_refused(answer: Result<(), SendError>, place: &mut usize) -> u32
    ensures status { result ≡ made_outcome (made_nothing answer) }
    ensures place { place.new ≡ place_left place.old (made_nothing answer) }
{
    let Err(why) = answer else {
        return OK;
    };
    if let Some(refused) = send_place(why) {
        *place = refused;
    }
    send_status(why)
}

/// An end writes a message whose arguments are numbers alone. Returns the status.
#[inline(always)]
pub fn send_words(
    end: &mut HeldEnd,
    target: Object,
    opcode: u16,
    words: &[u32],
    place: &mut usize,
) -> u32
    ensures answer { result ≡ made_outcome (words_answer end.old target opcode words.now) }
    ensures place { place.new
        ≡ place_left place.old (words_answer end.old target opcode words.now) }
    ensures state { result ≡ 0 → end.new ≡ after_words end.old target opcode words.now }
    ensures unchanged { result ≢ 0 → end.new ≡ end.old }
{
    let answer = write_words(end, target, opcode, words);
    put_refused(answer, place)
}
