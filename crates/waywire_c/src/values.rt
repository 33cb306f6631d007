//! Values as C has them: objects, arguments, numbers of bytes and tokens.
ghost use Rattle.std.specs.Prelude.{◌≡◌, ◌≤◌, length, take, IfSome, None, Some};
ghost use Rattle.std.specs.Prelude.{MatchOption, cond};
ghost use Rattle.wl_object_map.specs.declared.object.Maker.TheVariants.{Client, Server};
ghost use Rattle.wl_message.specs.Arrived.{AreSizes};
ghost use Rattle.wl_objects.specs.Writing.{given, given_of};
ghost use Rattle.wl_objects.specs.Parsed.{lent_got};
ghost use Rattle.waywire_c.specs.Values.{all_given, given_by, object_from_c};
ghost use Rattle.waywire_c.specs.Reports.{arg_named, arg_of_kind, arg_told, arg_told_by};

use std::ptr;
use wl_message::{Amounts, Limit, Peek, Sizes};
use wl_objects::{Arg, GotRef, Maker, Named, Object};
use wl_wire::Fixed;

/// How many arguments of a call are looked at: one more than any message has, so that a call with
/// too many is refused for their number.
pub const MAX_GIVEN: usize = 21;

/// The kind of an argument. A call takes those up to `FD`. `DEAD_OBJECT` and `BOUND` occur only in
/// reports, which have no `NEW` without an object, and `NEW_BY_SERVER` only in what tables say. 0
/// is none of them.
pub const INT: u32 = 1;

pub const UINT: u32 = 2;

pub const FIXED: u32 = 3;

pub const STRING: u32 = 4;

pub const NULL_STRING: u32 = 5;

pub const OBJECT: u32 = 6;

pub const NULL_OBJECT: u32 = 7;

pub const NEW: u32 = 8;

pub const ARRAY: u32 = 9;

pub const FD: u32 = 10;

pub const DEAD_OBJECT: u32 = 11;

pub const BOUND: u32 = 12;

pub const NEW_BY_SERVER: u32 = 13;

/// An object: its id, and its birth, which distinguishes it from every other object with that id.
#[repr(C)]
#[derive(Clone, Copy)]
pub struct CObject {
    pub birth: u64,
    pub id: u32,
}

/// One argument of a call. Its kind says which fields count.
#[repr(C)]
#[derive(Clone, Copy)]
pub struct CallArg<'a> {
    pub kind: u32,
    /// A signed number, or a fixed-point number in 256ths.
    pub int: i32,
    /// An unsigned number, or a token.
    pub uint: u32,
    pub object: CObject,
    /// A string or an array.
    pub bytes: &'a [u8],
}

/// One argument of a report, of the same layout. Its bytes lie in the end that read the message.
#[repr(C)]
#[derive(Clone, Copy)]
pub struct ReportArg {
    pub kind: u32,
    pub int: i32,
    /// An unsigned number, a token, or the version that a bind names.
    pub uint: u32,
    pub object: CObject,
    /// A string, an array, or the interface that a bind names.
    pub bytes: *const u8,
    pub length: usize,
}

/// How large the queues of an end are, and the limit of its messages: 0 is the usual one.
#[repr(C)]
#[derive(Clone, Copy)]
pub struct CSizes {
    pub out_bytes: usize,
    pub out_tokens: usize,
    pub in_bytes: usize,
    pub in_tokens: usize,
    pub limit: u32,
}

/// Numbers of bytes and of tokens.
#[repr(C)]
#[derive(Clone, Copy)]
pub struct CAmounts {
    pub bytes: usize,
    pub tokens: usize,
}

/// Bytes in two parts, one after the other.
#[repr(C)]
#[derive(Clone, Copy)]
pub struct CParts {
    pub front: *const u8,
    pub front_length: usize,
    pub back: *const u8,
    pub back_length: usize,
}

impl CParts {
    pub fn of(front: &[u8], back: &[u8]) -> CParts
        ensures front { result.front_length ≡ length front.now }
        ensures back { result.back_length ≡ length back.now }
    {
        let (front, front_length) = extent(front);
        let (back, back_length) = extent(back);
        CParts {
            front,
            front_length,
            back,
            back_length,
        }
    }

    /// The bytes that can go at one time, borrowed from an end.
    pub fn of_peek(peek: &Peek<'_>) -> CParts
        ensures front { result.front_length ≡ length peek.now.front.now }
        ensures back { result.back_length ≡ length peek.now.back.now }
    {
        CParts::of(peek.front, peek.back)
    }

    /// Free bytes, borrowed from an end.
    pub fn of_space(space: (&[u8], &[u8])) -> CParts
        ensures front { result.front_length ≡ length space.entry.0.now }
        ensures back { result.back_length ≡ length space.entry.1.now }
    {
        let (front, back) = space;
        CParts::of(front, back)
    }
}

impl CObject {
    ghost use Rattle.waywire_c.specs.Values.{made_object, object_from_c};

    /// The value if there is no object.
    pub const fn none() -> CObject
        ensures { object_from_c result ≡ made_object None }
    {
        CObject { birth: 0, id: 0 }
    }

    pub fn of(object: Object) -> CObject
        ensures { object_from_c result ≡ object }
    {
        CObject {
            birth: object.birth,
            id: object.id,
        }
    }

    pub fn object(self) -> Object
        ensures { result ≡ object_from_c self }
    {
        Object {
            id: self.id,
            birth: self.birth,
        }
    }
}

impl CSizes {
    ghost use Rattle.std.specs.Prelude.{◌↔◌, IsSome};
    ghost use Rattle.wl_message.specs.Cut.{IsLimit};
    ghost use Rattle.waywire_c.specs.Sizes.{limit_in_c, AreAllowed, AreSizesOf};

    /// The limit, if messages can have it.
    fn limit(&self) -> Option<Limit>
        ensures some { IsSome result ↔ IsLimit (limit_in_c self.now) }
        ensures same { IfSome result (λ limit. limit.bytes ≡ limit_in_c self.now) }
    {
        if self.limit == 0 {
            return Some(Limit::USUAL);
        }
        Limit::new(self.limit)
    }

    /// The sizes, if an end can have them.
    pub fn sizes(&self) -> Option<Sizes>
        ensures some { IsSome result ↔ AreAllowed self.now }
        ensures same { IfSome result (λ sizes. AreSizesOf self.now sizes) }
        ensures allowed { IfSome result (λ sizes. AreSizes sizes) }
    {
        let sizes = Sizes {
            out_bytes: self.out_bytes,
            out_tokens: self.out_tokens,
            in_bytes: self.in_bytes,
            in_tokens: self.in_tokens,
            limit: self.limit()?,
        };
        if sizes.is_allowed() {
            Some(sizes)
        } else {
            None
        }
    }
}

impl CAmounts {
    ghost use Rattle.waywire_c.specs.Values.{amounts_of};

    pub fn of(amounts: Amounts) -> CAmounts
        ensures { amounts_of result ≡ amounts }
    {
        CAmounts {
            bytes: amounts.bytes,
            tokens: amounts.tokens,
        }
    }
}

/// The maker of a range's objects: the server or the client.
pub const fn maker(by_server: bool) -> Maker
    ensures { result ≡ cond by_server Server Client }
{
    if by_server {
        Maker::Server
    } else {
        Maker::Client
    }
}

/// Where a slice begins; null if it is empty.
#[inline(always)]
pub fn start_of(bytes: &[u8]) -> *const u8 {
    match bytes.first() {
        Some(first) => ptr::from_ref(first),
        None => ptr::null(),
    }
}

/// Where a text begins. For an empty text this is a NUL elsewhere, so it is never null.
#[inline(always)]
pub fn start_of_text(text: &[u8]) -> *const u8 {
    match text.first() {
        Some(first) => ptr::from_ref(first),
        None => start_of(b"\0"),
    }
}

/// Where a slice begins, as in `start_of`, and its length.
#[inline(always)]
pub fn extent(bytes: &[u8]) -> (*const u8, usize)
    ensures { result.1 ≡ length bytes.now }
{
    (start_of(bytes), bytes.len())
}

/// Where a slice of tokens begins; null if it is empty.
pub fn start_of_tokens(tokens: &[u32]) -> *const u32 {
    match tokens.first() {
        Some(first) => ptr::from_ref(first),
        None => ptr::null(),
    }
}

/// Writes the argument of a call to a slot. `None` if no call takes its kind.
#[inline(always)]
fn put_arg<'a>(arg: &CallArg<'a>, slot: &mut Arg<'a>) -> Option<()>
    ensures { MatchOption result (given_by arg.now ≡ None)
        (λ _. given_by arg.now ≡ Some (given_of slot.new)) }
{
    match arg.kind {
        INT => *slot = Arg::Int(arg.int),
        UINT => *slot = Arg::Uint(arg.uint),
        FIXED => *slot = Arg::Fixed(Fixed::from_raw(arg.int)),
        STRING => *slot = Arg::Str(Some(arg.bytes)),
        NULL_STRING => *slot = Arg::Str(None),
        OBJECT => *slot = Arg::Obj(Some(arg.object.object())),
        NULL_OBJECT => *slot = Arg::Obj(None),
        NEW => *slot = Arg::New,
        ARRAY => *slot = Arg::Array(arg.bytes),
        FD => *slot = Arg::Fd(arg.uint),
        _ => return None,
    }
    Some(())
}

/// Writes the arguments of a call to the first slots, as many as there are slots, and returns their
/// number. `None` if one has a kind that no call takes.
#[inline(always)]
pub fn put_args<'a>(args: &[CallArg<'a>], slots: &mut [Arg<'a>]) -> Option<usize>
    ensures given { MatchOption result (all_given (take (length slots.old) args.now) ≡ None)
        (λ count. all_given (take (length slots.old) args.now)
        ≡ Some (given (take count slots.new))) }
    ensures within { IfSome result (λ count. count ≤ length slots.new) }
    ensures as_many { IfSome result (λ _. length slots.new ≡ length slots.old) }
{
    let count = args.len().min(slots.len());
    'places: for place in 0..count {
        put_arg(&args[place], &mut slots[place])?;
    }
    Some(count)
}

/// An argument of this kind with nothing else.
#[inline(always)]
fn plain(kind: u32) -> ReportArg
    ensures { arg_told_by result ≡ arg_of_kind kind }
{
    ReportArg {
        kind,
        int: 0,
        uint: 0,
        object: CObject::none(),
        bytes: ptr::null(),
        length: 0,
    }
}

#[inline(always)]
fn with_bytes(kind: u32, bytes: &[u8]) -> ReportArg
    ensures { arg_told_by result ≡ record (arg_of_kind kind) { length = length bytes.now } }
{
    let (bytes, length) = extent(bytes);
    ReportArg {
        bytes,
        length,
        ..plain(kind)
    }
}

/// As `with_bytes`, for a text.
#[inline(always)]
fn with_text(kind: u32, text: &[u8]) -> ReportArg
    ensures { arg_told_by result ≡ record (arg_of_kind kind) { length = length text.now } }
{
    ReportArg {
        bytes: start_of_text(text),
        ..with_bytes(kind, text)
    }
}

#[inline(always)]
fn with_object(kind: u32, object: Object) -> ReportArg
    ensures { arg_told_by result ≡ record (arg_of_kind kind) { object = object } }
{
    ReportArg {
        object: CObject::of(object),
        ..plain(kind)
    }
}

#[inline(always)]
fn with_uint(kind: u32, uint: u32) -> ReportArg
    ensures { arg_told_by result ≡ record (arg_of_kind kind) { uint = uint } }
{
    ReportArg {
        uint,
        ..plain(kind)
    }
}

#[inline(always)]
fn with_int(kind: u32, int: i32) -> ReportArg
    ensures { arg_told_by result ≡ record (arg_of_kind kind) { int = int } }
{
    ReportArg { int, ..plain(kind) }
}

/// An object that is named, as an argument.
pub fn named(named: Named) -> ReportArg
    ensures { arg_told_by result ≡ arg_named named }
{
    match named {
        Named::Null => plain(NULL_OBJECT),
        Named::Live(object) => with_object(OBJECT, object),
        Named::Dead(object) => with_object(DEAD_OBJECT, object),
    }
}

/// Writes the argument of a report to a slot, in C's form.
#[inline(always)]
pub fn show(got: GotRef<'_>, slot: &mut ReportArg)
    ensures { arg_told_by slot.new ≡ arg_told (lent_got got.entry) }
{
    match got {
        GotRef::Int(number) => *slot = with_int(INT, number),
        GotRef::Uint(number) => *slot = with_uint(UINT, number),
        GotRef::Fixed(number) => *slot = with_int(FIXED, number.raw()),
        GotRef::Str(Some(text)) => *slot = with_text(STRING, text),
        GotRef::Str(None) => *slot = plain(NULL_STRING),
        GotRef::Obj(object) => *slot = named(object),
        GotRef::New(object) => *slot = with_object(NEW, object),
        GotRef::Bound {
            iface,
            version,
            object,
        } => {
            *slot = ReportArg {
                uint: version,
                object: CObject::of(object),
                ..with_text(BOUND, iface)
            };
        }
        GotRef::Array(bytes) => *slot = with_bytes(ARRAY, bytes),
        GotRef::Fd(token) => *slot = with_uint(FD, token),
    }
}
