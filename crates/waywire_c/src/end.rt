//! Calls for either end.
ghost use Rattle.std.specs.Prelude.{◌≡◌, ◌≢◌, ◌⊎◌, ◌+◌, ◌++◌, length, take, drop, true};
ghost use Rattle.std.specs.Prelude.{min, slice_get, cond, IfSome, MatchOption, None, List, Ok, Err};
ghost use Rattle.wl_sigs.specs.Outcome.{outcome};
ghost use Rattle.wl_sigs.specs.Tables.{Interface};
ghost use Rattle.wl_text.specs.declared.fault.TableFault.TheVariants.{BadLine as bad_line};
ghost use Rattle.wl_text.specs.declared.fault.TableFault.TheVariants.{BadTable as bad_table};
ghost use Rattle.wl_object_map.specs.declared.object.Maker.TheVariants.{Client, Server};
ghost use Rattle.wl_object_map.specs.Objects.{ids_used, look, row_count};
ghost use Rattle.wl_message.specs.Outgoing.{goes, Peeks, room_of, token_room_of};
ghost use Rattle.wl_message.specs.Outgoing.{waiting_bytes, waiting_tokens};
ghost use Rattle.wl_connection.specs.Core.{in_room, is_drained, live, display_object, feeds};
ghost use Rattle.wl_connection.specs.Core.{feeds_len, with_arrived};
ghost use Rattle.wl_connection.specs.Core.{with_gone};
ghost use Rattle.wl_connection.specs.MoreTables.{with_tables};
ghost use Rattle.wl_connection.specs.Sending.{after_send};
ghost use Rattle.wl_connection.specs.Transport.{EndReceives};
ghost use Rattle.wl_connection.specs.Waiting.{given_up, waiting, waiting_count};
ghost use Rattle.waywire_c.specs.Ends.{core_of, end_with_core, writes, front_opens};
ghost use Rattle.waywire_c.specs.Ends.{takes_none, read_status, told_next, next_entry};
ghost use Rattle.waywire_c.specs.Ends.{next_args, end_after_next};
ghost use Rattle.waywire_c.specs.Statuses.{find_outcome, made_outcome};
ghost use Rattle.waywire_c.specs.Statuses.{more_tables_outcome, OrMemory};
ghost use Rattle.waywire_c.specs.Values.{amounts_of, given_in, iface_at, object_from_c};
ghost use Rattle.waywire_c.specs.Calls.{after_words, place_left, words_answer, SendTells};
ghost use Rattle.waywire_c.specs.Reports.{entry_told, entry_told_by, fields_of_kind, TellsArgs};
ghost use Rattle.waywire_c.specs.Reports.{told_by};

use crate::end_handle::EndHandle;
use crate::held::HeldTables;
use crate::making;
use crate::reading::read;
use crate::reports::Report;
use crate::sending::{Call, send, send_words};
use crate::statuses::{FIRST_SERVER_OBJECT, NOT_FOUND, OK};
use crate::tables::put_fault;
use crate::values::{CAmounts, CObject, CParts, CallArg, ReportArg, maker};
use std::alloc::Global;
use std::ptr;
use wl_connection::End;

/// Frees an end, and what was borrowed from it.
#[unsafe(no_mangle)]
pub extern "C" fn waywire_c_end_free(end: EndHandle) {
    drop(end.opened());
}

/// Writes wl_display, the first object, to `display`.
#[unsafe(no_mangle)]
pub extern "C" fn waywire_c_end_display(end: &mut EndHandle, display: &mut CObject)
    ensures display { object_from_c display.new ≡ display_object }
    ensures unchanged { end.new.held ≡ end.old.held }
{
    *display = CObject::of(end.get_mut().display());
}

/// Writes the interface and the version of a live object to `interface` and `version`.
#[unsafe(no_mangle)]
pub extern "C" fn waywire_c_end_live(
    end: &mut EndHandle,
    object: CObject,
    interface: &mut u16,
    version: &mut u32,
) -> u32
    ensures answer { result ≡ find_outcome (live (core_of end.old.held)
        (object_from_c object)) }
    ensures found { MatchOption (live (core_of end.old.held) (object_from_c object))
        ((interface.new ≡ interface.old) × (version.new ≡ version.old))
        (λ found. (found.0 ≡ iface_at interface.new) × (found.1 ≡ version.new)) }
    ensures unchanged { end.new.held ≡ end.old.held }
{
    match end.get_mut().live(object.object()) {
        Some((iface, found)) => {
            *interface = iface.0;
            *version = found;
            OK
        }
        None => NOT_FOUND,
    }
}

/// How many objects the end has in a range of ids, the server's or the client's, including
/// wl_display and, at a client, those that it destroyed.
#[unsafe(no_mangle)]
pub extern "C" fn waywire_c_end_object_count(end: &mut EndHandle, by_server: bool) -> u32
    ensures answer { result
        ≡ row_count (cond by_server Server Client) (core_of end.old.held).view }
    ensures unchanged { end.new.held ≡ end.old.held }
{
    end.get_mut().objects().len(maker(by_server))
}

/// How many ids of a range, the server's or the client's, were ever used. These are the first ids
/// of the range, so all its objects have one of them.
#[unsafe(no_mangle)]
pub extern "C" fn waywire_c_end_ids_used(end: &mut EndHandle, by_server: bool) -> u32
    ensures answer { result
        ≡ ids_used (cond by_server Server Client) (core_of end.old.held).view }
    ensures unchanged { end.new.held ≡ end.old.held }
{
    end.get_mut().objects().used(maker(by_server))
}

/// Writes the birth of the object with this id to `birth`, even if the end has destroyed it.
#[unsafe(no_mangle)]
pub extern "C" fn waywire_c_end_look(end: &mut EndHandle, id: u32, birth: &mut u64) -> u32
    ensures answer { result ≡ find_outcome (look (core_of end.old.held).view id) }
    ensures birth { MatchOption (look (core_of end.old.held).view id) (birth.new ≡ birth.old)
        (λ entry. birth.new ≡ entry.birth) }
    ensures unchanged { end.new.held ≡ end.old.held }
{
    match end.get_mut().objects().look(id) {
        Some(entry) => {
            *birth = entry.birth;
            OK
        }
        None => NOT_FOUND,
    }
}

/// Whether the end has failed.
#[unsafe(no_mangle)]
pub extern "C" fn waywire_c_end_has_failed(end: &mut EndHandle) -> bool
    ensures answer { result ≡ (core_of end.old.held).failed }
    ensures unchanged { end.new.held ≡ end.old.held }
{
    end.get_mut().has_failed()
}

/// Writes the free bytes and tokens of the inbox to `room`; zero at a failed end.
#[unsafe(no_mangle)]
pub extern "C" fn waywire_c_end_in_room(end: &mut EndHandle, room: &mut CAmounts)
    ensures room { amounts_of room.new ≡ in_room (core_of end.old.held) }
    ensures unchanged { end.new.held ≡ end.old.held }
{
    *room = CAmounts::of(end.get_mut().in_room());
}

/// Writes the free bytes and tokens of the outbox to `room`.
#[unsafe(no_mangle)]
pub extern "C" fn waywire_c_end_out_room(end: &mut EndHandle, room: &mut CAmounts)
    ensures bytes { room.new.bytes ≡ room_of (core_of end.old.held).outbox }
    ensures tokens { room.new.tokens ≡ token_room_of (core_of end.old.held).outbox }
    ensures unchanged { end.new.held ≡ end.old.held }
{
    let core = end.get_mut().core();
    *room = CAmounts {
        bytes: core.outbox.room(),
        tokens: core.outbox.token_room(),
    };
}

/// Whether nothing waits in either queue.
#[unsafe(no_mangle)]
pub extern "C" fn waywire_c_end_is_drained(end: &mut EndHandle) -> bool
    ensures answer { result ≡ is_drained (core_of end.old.held) }
    ensures unchanged { end.new.held ≡ end.old.held }
{
    end.get_mut().is_drained()
}

/// Takes in what arrived, and writes how much that was to `fed`. Returns whether the end has
/// failed: a failed end takes nothing.
#[unsafe(no_mangle)]
pub extern "C" fn waywire_c_end_feed(
    end: &mut EndHandle,
    bytes: &[u8],
    tokens: &[u32],
    fed: &mut CAmounts,
) -> bool
    ensures failed { result ≡ (core_of end.old.held).failed }
    ensures count { amounts_of fed.new ≡ feeds (core_of end.old.held) bytes.now tokens.now }
    ensures state { end.new.held
        ≡ end_with_core end.old.held
        (with_arrived (core_of end.old.held) (take fed.new.bytes bytes.now)
        (take fed.new.tokens tokens.now)) }
{
    let held = end.get_mut();
    let failed = held.has_failed();
    *fed = CAmounts::of(held.feed(bytes, tokens));
    failed
}

/// Writes to `amounts` how much `take` would move into memory of these lengths.
#[unsafe(no_mangle)]
pub extern "C" fn waywire_c_end_goes(
    end: &mut EndHandle,
    bytes: usize,
    tokens: usize,
    amounts: &mut CAmounts,
)
    ensures count { amounts_of amounts.new ≡ goes (core_of end.old.held).outbox bytes tokens }
    ensures unchanged { end.new.held ≡ end.old.held }
{
    *amounts = CAmounts::of(end.get_mut().goes(bytes, tokens));
}

/// Moves what waits to be sent into the caller's memory, and writes how much that was to `taken`.
#[unsafe(no_mangle)]
pub extern "C" fn waywire_c_end_take(
    end: &mut EndHandle,
    bytes: &mut [u8],
    tokens: &mut [u32],
    taken: &mut CAmounts,
)
    ensures count { amounts_of taken.new
        ≡ goes (core_of end.old.held).outbox (length bytes.old) (length tokens.old) }
    ensures bytes { bytes.new
        ≡ take taken.new.bytes (waiting_bytes (core_of end.old.held).outbox)
        ++ drop taken.new.bytes bytes.old }
    ensures tokens { tokens.new
        ≡ take taken.new.tokens (waiting_tokens (core_of end.old.held).outbox)
        ++ drop taken.new.tokens tokens.old }
    ensures state { end.new.held
        ≡ end_with_core end.old.held (with_gone (core_of end.old.held) taken.new.bytes) }
{
    *taken = CAmounts::of(end.get_mut().take(bytes, tokens));
}

/// Writes to `parts` where the bytes that can be sent at one time are, and to `tokens` how many
/// tokens go with the first byte.
#[unsafe(no_mangle)]
pub extern "C" fn waywire_c_end_peek(end: &mut EndHandle, parts: &mut CParts, tokens: &mut usize)
    ensures peeked { Peeks (core_of end.old.held).outbox
        (take (parts.new.front_length + parts.new.back_length)
        (waiting_bytes (core_of end.old.held).outbox)) tokens.new }
    ensures unchanged { end.new.held ≡ end.old.held }
{
    let peek = end.get_mut().peek();
    *parts = CParts::of_peek(&peek);
    *tokens = peek.tokens;
}

/// Writes to `token` the token at an index of those that wait to be sent.
#[unsafe(no_mangle)]
pub extern "C" fn waywire_c_end_token_to_go(
    end: &mut EndHandle,
    place: usize,
    token: &mut u32,
) -> u32
    ensures answer { result ≡ find_outcome
        (slice_get (waiting_tokens (core_of end.old.held).outbox) place) }
    ensures found { MatchOption (slice_get (waiting_tokens (core_of end.old.held).outbox)
        place)
        (token.new ≡ token.old) (λ found. token.new ≡ found) }
    ensures unchanged { end.new.held ≡ end.old.held }
{
    match end.get_mut().token_to_go(place) {
        Some(found) => {
            *token = found;
            OK
        }
        None => NOT_FOUND,
    }
}

/// Removes what was sent, and writes how much that was to `taken`.
#[unsafe(no_mangle)]
pub extern "C" fn waywire_c_end_sent(end: &mut EndHandle, bytes: usize, taken: &mut CAmounts)
    ensures count { amounts_of taken.new
        ≡ goes (core_of end.old.held).outbox bytes
        (length (waiting_tokens (core_of end.old.held).outbox)) }
    ensures bytes { taken.new.bytes
        ≡ min bytes (length (waiting_bytes (core_of end.old.held).outbox)) }
    ensures state { end.new.held
        ≡ end_with_core end.old.held (with_gone (core_of end.old.held) taken.new.bytes) }
{
    *taken = CAmounts::of(end.get_mut().sent(bytes));
}

/// Writes to `parts` where the free bytes of the inbox lie.
#[unsafe(no_mangle)]
pub extern "C" fn waywire_c_end_space(end: &mut EndHandle, parts: &mut CParts)
    ensures room { parts.new.front_length + parts.new.back_length
        ≡ (in_room (core_of end.old.held)).bytes }
    ensures back { parts.new.back_length ≡ 0 }
    ensures unchanged { end.new.held ≡ end.old.held }
{
    *parts = CParts::of_space(end.get_mut().space());
}

/// Takes in what was written there, and writes how much of it to `fed`. Returns whether the end has
/// failed: a failed end takes nothing.
#[unsafe(no_mangle)]
pub extern "C" fn waywire_c_end_received(
    end: &mut EndHandle,
    bytes: usize,
    tokens: &[u32],
    fed: &mut CAmounts,
) -> bool
    ensures failed { result ≡ (core_of end.old.held).failed }
    ensures count { amounts_of fed.new ≡ feeds_len (core_of end.old.held) bytes tokens.now }
    ensures state { EndReceives (core_of end.old.held) fed.new.bytes
        (take fed.new.tokens tokens.now) (core_of end.new.held) }
    ensures others { end.new.held
        ≡ end_with_core end.old.held (core_of end.new.held) }
{
    let held = end.get_mut();
    let failed = held.has_failed();
    *fed = CAmounts::of(held.received(bytes, tokens));
    failed
}

/// Gives an end up: moves the tokens that wait in its queues into the caller's memory, and writes
/// their number to `taken`.
#[unsafe(no_mangle)]
pub extern "C" fn waywire_c_end_take_waiting_tokens(
    end: &mut EndHandle,
    tokens: &mut [u32],
    taken: &mut usize,
)
    ensures count { taken.new ≡ waiting_count (core_of end.old.held) (length tokens.old) }
    ensures tokens { tokens.new
        ≡ take taken.new (waiting (core_of end.old.held)) ++ drop taken.new tokens.old }
    ensures state { end.new.held
        ≡ end_with_core end.old.held
        (given_up (core_of end.old.held) (length tokens.old)) }
{
    *taken = end.get_mut().take_waiting_tokens(tokens);
}

/// Writes a message, and writes the object that it makes to `made`. If an argument is refused, its
/// index is written to `place`.
#[unsafe(no_mangle)]
pub extern "C" fn waywire_c_end_send(
    end: &mut EndHandle,
    target: CObject,
    opcode: u16,
    args: &[CallArg<'_>],
    made: &mut CObject,
    place: &mut usize,
) -> u32
    ensures answer { SendTells (core_of end.old.held) (writes end.old.held) (object_from_c target)
        opcode
        (given_in args.now) result (object_from_c made.old) (object_from_c made.new) place.old
        place.new }
    ensures state { result ≡ 0
        → IfSome (given_in args.now) (λ given. end.new.held
        ≡ end_with_core end.old.held
        (after_send (core_of end.old.held) (writes end.old.held) (object_from_c target) opcode
        given)) }
    ensures unchanged { result ≢ 0 → end.new.held ≡ end.old.held }
{
    let call = Call {
        target: target.object(),
        opcode,
        args,
    };
    send(end.get_mut(), &call, made, place)
}

/// Writes a message whose arguments are numbers alone, given as their words. If an argument is
/// refused, its index is written to `place`.
#[unsafe(no_mangle)]
pub extern "C" fn waywire_c_end_send_words(
    end: &mut EndHandle,
    target: CObject,
    opcode: u16,
    words: &[u32],
    place: &mut usize,
) -> u32
    ensures answer { result ≡ made_outcome
        (words_answer end.old.held (object_from_c target) opcode words.now) }
    ensures place { place.new ≡ place_left place.old
        (words_answer end.old.held (object_from_c target) opcode words.now) }
    ensures state { result ≡ 0
        → end.new.held ≡ after_words end.old.held (object_from_c target) opcode words.now }
    ensures unchanged { result ≢ 0 → end.new.held ≡ end.old.held }
{
    send_words(end.get_mut(), target.object(), opcode, words, place)
}

/// Reads the next message, and writes its report and as many of its arguments as fit.
#[unsafe(no_mangle)]
pub extern "C" fn waywire_c_end_next(
    end: &mut EndHandle,
    report: &mut Report,
    args: &mut [ReportArg],
) -> u32
    ensures answer { OrMemory (front_opens end.old.held) (read_status end.old.held) result }
    ensures takes_none { takes_none end.old.held ≡ true → result ≡ read_status end.old.held }
    ensures report { result ≢ 11
        → told_by report.new ≡ told_next (length args.old) end.old.held }
    ensures entry { result ≢ 11 → entry_told_by report.new ≡ next_entry end.old.held }
    ensures args { result ≢ 11 → TellsArgs (next_args end.old.held) args.old args.new }
    ensures state { result ≢ 11 → end.new.held ≡ end_after_next end.old.held }
    ensures no_report { result ≡ 11 → told_by report.new ≡ fields_of_kind 0 }
    ensures no_entry { result ≡ 11 → entry_told_by report.new ≡ entry_told None }
    ensures no_args { result ≡ 11 → args.new ≡ args.old }
    ensures unchanged { result ≡ 11 → end.new.held ≡ end.old.held }
{
    read(end.get_mut(), report, args)
}

/// Reads a text over the end's own tables, gives the resulting tables to the end, and writes their
/// address to `more`. If a line of the text is bad, its number is written to `line`, and the rule
/// that it breaks to `rule`.
#[unsafe(no_mangle)]
pub extern "C" fn waywire_c_end_more_tables(
    alloc: Global,
    end: &mut EndHandle,
    text: &[u8],
    more: &mut *const u8,
    line: &mut usize,
    rule: &mut u32,
) -> u32
    ensures answer { (result ≡ more_tables_outcome (core_of end.old.held).tables
        (outcome (core_of end.old.held).tables text.now)) ⊎ (result ≡ 11) }
    ensures bad_line { result ≡ 71
        → outcome (core_of end.old.held).tables text.now ≡ Err (bad_line line.new) }
    ensures bad_table { result ≡ 72
        → outcome (core_of end.old.held).tables text.now ≡ Err (bad_table line.new rule.new) }
    ensures line { result ≢ 71 → result ≢ 72 → line.new ≡ line.old }
    ensures rule { result ≢ 72 → rule.new ≡ rule.old }
    ensures state { result ≡ 0 → (tables : List Interface)
        × (outcome (core_of end.old.held).tables text.now ≡ Ok tables)
        × (end.new.held ≡ end_with_core end.old.held (with_tables (core_of end.old.held) tables)) }
    ensures none { result ≢ 0 → more.new ≡ more.old }
    ensures unchanged { result ≢ 0 → end.new.held ≡ end.old.held }
{
    let end = end.get_mut();
    let boxed = match making::more_tables(alloc, end.core().tables, text) {
        Ok(boxed) => boxed,
        Err(why) => return put_fault(why, line, rule),
    };
    // Tested before they are lent, because only C frees what is lent.
    if boxed.tables.has_server_objects() && !end.core().tables.has_server_objects() {
        return FIRST_SERVER_OBJECT;
    }
    let lent: &'static HeldTables = Box::leak(boxed);
    end.take_tables(&lent.tables);
    *more = ptr::from_ref(lent).cast::<u8>();
    OK
}
