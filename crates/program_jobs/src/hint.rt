//! The line on standard error after a verdict on a bind that the tables do not know.
ghost use Rattle.std.specs.Prelude.{◌≡◌, ◌++◌, List, IfOk, OnOk, option_map};
ghost use Rattle.std.specs.List.{list_all};
ghost use Rattle.wl_wire.specs.Reading.{seen};
ghost use Rattle.wl_recording.specs.declared.piece.Direction.TheVariants.{ToServer};
ghost use Rattle.wl_recording.specs.Piece.{Piece, own_bytes};
ghost use Rattle.wl_recording.specs.Text.{TextRecords};
ghost use Rattle.wl_check.specs.Merged.{stream_of};
ghost use Rattle.wl_sigs.specs.Rules.{is_name, is_name_byte};
ghost use Rattle.program_jobs.specs.Hint.{bound_at, bound_in, hint_for, hint_of, hint_text};
ghost use Rattle.program_jobs.specs.Hint.{known_version, lack_line, lack_words, newer_text};
ghost use Rattle.program_jobs.specs.Hint.{seen_bound, unknown_text};

use itoa::Buffer;
use std::alloc::{AllocError, Allocator};
use wl_check::Verdict;
use wl_objects::Fault;
use wl_recording::{Direction, Passed, Recording};
use wl_sigs::Tables;
use wl_wire::{ArgFault, Kind, ValueRef, read_ref};

/// The offset of the interface in a bind: after the header and the global's name.
const BOUND_AT: usize = 12;

/// The most bytes of an interface's name.
const MOST_NAME_BYTES: usize = 256;

/// The interface and the version that a bind names.
#[derive(Clone, Copy)]
pub(crate) struct Bound<'a> {
    pub(crate) interface: &'a [u8],
    pub(crate) version: u32,
}

/// The line for standard error after the verdict on a recording with this text. It is empty unless
/// the message that breaks a rule is a bind whose interface the tables lack, or have only in an
/// earlier version.
pub(crate) fn hint_on<A: Allocator + Clone>(
    alloc: A,
    tables: &Tables,
    text: &[u8],
    verdict: &Verdict,
) -> Result<Vec<u8, A>, AllocError>
    ensures { IfOk result (λ hint. (pieces : List Piece) → TextRecords text.now pieces
        → hint.items ≡ hint_of tables.now (stream_of ToServer pieces) verdict.now) }
{
    match verdict {
        Verdict::Broken {
            direction: Direction::ToServer,
            index: _index,
            offset,
            fault: Fault::BadBind,
        } => {
            let Ok(recording) = Recording::parse(alloc.clone()?, text) else {
                return Err(AllocError);
            };
            let requests = requests_of(alloc.clone()?, &recording)?;
            hint_at(alloc, tables, &requests, *offset)
        }
        _ => Ok(Vec::new(alloc)),
    }
}

/// All bytes to the server.
pub(crate) fn requests_of<A: Allocator, B: Allocator + Clone>(
    alloc: A,
    recording: &Recording<B>,
) -> Result<Vec<u8, A>, AllocError>
    ensures { IfOk result (λ requests. requests.items ≡ stream_of ToServer recording.now) }
{
    let mut requests = Vec::new(alloc);
    'pieces: for piece in recording.pieces() {
        append_request(&mut requests, piece)?;
    }
    Ok(requests)
}

/// Appends the bytes of a piece that went to the server.
fn append_request<A: Allocator, B: Allocator>(
    requests: &mut Vec<u8, A>,
    piece: &Passed<B>,
) -> Result<(), AllocError>
    ensures { OnOk result (requests.new.items ≡ requests.old.items
        ++ own_bytes ToServer piece.now.direction piece.now.bytes) }
{
    match piece.direction {
        Direction::ToServer => requests.extend_from_slice(piece.bytes.as_slice()),
        Direction::ToClient => Ok(()),
    }
}

/// The line for the bind at this offset of the bytes to the server.
fn hint_at<A: Allocator>(
    alloc: A,
    tables: &Tables,
    requests: &[u8],
    offset: usize,
) -> Result<Vec<u8, A>, AllocError>
    ensures { IfOk result (λ hint. hint.items ≡ hint_for tables.now
        (bound_at requests.now offset)) }
{
    let mut hint = Vec::new(alloc);
    if let Some(bound) = bound_at(requests, offset) {
        let known = known_version(tables, bound.interface);
        write_hint(&mut hint, &bound, known)?;
    }
    Ok(hint)
}

/// What the bind at this offset names.
pub(crate) fn bound_at(requests: &[u8], offset: usize) -> Option<Bound<'_>>
    ensures { option_map seen_bound result ≡ bound_at requests.now offset }
{
    if requests.len() < BOUND_AT || offset > requests.len() - BOUND_AT {
        return None;
    }
    named(read_ref(Kind::New(None), &requests[offset + BOUND_AT..]))
}

/// The interface and the version in the argument for a new object.
fn named(argument: Result<(ValueRef<'_>, usize), ArgFault>) -> Option<Bound<'_>>
    ensures { option_map seen_bound result ≡ bound_in (seen argument.entry) }
{
    match argument {
        Ok((value, _)) => match value {
            ValueRef::NewNamed {
                iface,
                version,
                id: _id,
            } => Some(Bound {
                interface: iface,
                version,
            }),
            _ => None,
        },
        Err(_) => None,
    }
}

/// The version that the tables have of an interface, if they have it.
pub(crate) fn known_version(tables: &Tables, interface: &[u8]) -> Option<u32>
    ensures { result ≡ known_version tables.now interface.now }
{
    let place = tables.interface(interface)?;
    tables.version(place)
}

/// Appends the line for a bind, by the version of its interface in the tables, if they have it.
fn write_hint<A: Allocator>(
    out: &mut Vec<u8, A>,
    bound: &Bound<'_>,
    known: Option<u32>,
) -> Result<(), AllocError>
    ensures { OnOk result
        (out.new.items ≡ out.old.items ++ hint_text (seen_bound bound.now) known) }
{
    match known {
        None if is_name(bound.interface) => write_line(out, bound, None),
        None => Ok(()),
        Some(most) if most < bound.version => write_line(out, bound, known),
        Some(_) => Ok(()),
    }
}

/// Appends the line that says what the tables lack.
fn write_line<A: Allocator>(
    out: &mut Vec<u8, A>,
    bound: &Bound<'_>,
    known: Option<u32>,
) -> Result<(), AllocError>
    ensures { OnOk result
        (out.new.items ≡ out.old.items ++ lack_line (seen_bound bound.now) known) }
{
    out.extend_from_slice(b"waywire: ")?;
    write_lack(out, bound, known)?;
    out.extend_from_slice(b": see --tables\n")
}

/// Appends what the tables lack for a bind, in words.
pub(crate) fn write_lack<A: Allocator>(
    out: &mut Vec<u8, A>,
    bound: &Bound<'_>,
    known: Option<u32>,
) -> Result<(), AllocError>
    ensures { OnOk result
        (out.new.items ≡ out.old.items ++ lack_words (seen_bound bound.now) known) }
{
    match known {
        None => write_unknown(out, bound.interface),
        Some(known) => write_newer(out, bound, known),
    }
}

/// The same for an interface that no table has.
fn write_unknown<A: Allocator>(out: &mut Vec<u8, A>, interface: &[u8]) -> Result<(), AllocError>
    ensures { OnOk result (out.new.items ≡ out.old.items ++ unknown_text interface.now) }
{
    if !is_name(interface) {
        return out.extend_from_slice(b"no table can have its interface");
    }
    out.extend_from_slice(b"no table has ")?;
    out.extend_from_slice(interface)
}

/// The same for an interface whose version is above that of the tables.
fn write_newer<A: Allocator>(
    out: &mut Vec<u8, A>,
    bound: &Bound<'_>,
    known: u32,
) -> Result<(), AllocError>
    ensures { OnOk result
        (out.new.items ≡ out.old.items ++ newer_text (seen_bound bound.now) known) }
{
    let mut most = Buffer::new();
    let mut named = Buffer::new();
    let most = most.format(known).as_bytes();
    let named = named.format(bound.version).as_bytes();
    append_three(
        out,
        b"the tables have ",
        bound.interface,
        b" up to version ",
    )?;
    append_three(out, most, b", and it is bound at ", named)
}

/// Appends three texts.
fn append_three<A: Allocator>(
    out: &mut Vec<u8, A>,
    first: &[u8],
    second: &[u8],
    third: &[u8],
) -> Result<(), AllocError>
    ensures { OnOk result (out.new.items ≡ out.old.items
        ++ (first.now ++ (second.now ++ third.now))) }
{
    out.extend_from_slice(first)?;
    out.extend_from_slice(second)?;
    out.extend_from_slice(third)
}

/// A name that tables can have.
fn is_name(name: &[u8]) -> bool
    ensures { result ≡ is_name name.now }
{
    name.len() >= 1 && name.len() <= MOST_NAME_BYTES && are_name_bytes(name)
}

fn are_name_bytes(name: &[u8]) -> bool
    ensures { result ≡ list_all is_name_byte name.now }
{
    name.iter().all(|byte| is_name_byte(*byte))
}

fn is_name_byte(byte: u8) -> bool
    ensures { result ≡ is_name_byte byte }
{
    (byte >= b'a' && byte <= b'z') || (byte >= b'0' && byte <= b'9') || byte == b'_'
}
