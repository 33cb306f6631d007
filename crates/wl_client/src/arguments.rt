//! The arguments of wl_display's and wl_registry's events, by index.
ghost use Rattle.std.specs.Prelude.{◌≡◌};
ghost use Rattle.wl_objects.specs.Parsed.{spelled_in};
ghost use Rattle.wl_client.specs.Reports.{argument, id_in, number_in, text_in};

use wl_objects::ParsedArgs;
use wl_wire::ValueRef;

/// The id at an index; 0 if there is none.
pub(crate) fn id_at(args: &ParsedArgs, body: &[u8], place: usize) -> u32
    ensures { result ≡ id_in (argument (spelled_in body.now args.now) place) }
{
    match args.value(body, place) {
        Some(ValueRef::Obj(id)) => id,
        _ => 0,
    }
}

/// The number at an index; 0 if there is none.
pub(crate) fn number_at(args: &ParsedArgs, body: &[u8], place: usize) -> u32
    ensures { result ≡ number_in (argument (spelled_in body.now args.now) place) }
{
    match args.value(body, place) {
        Some(ValueRef::Uint(number)) => number,
        _ => 0,
    }
}

/// The text at an index; empty if there is none.
pub(crate) fn text_at<'a>(args: &ParsedArgs, body: &'a [u8], place: usize) -> &'a [u8]
    ensures { result.now ≡ text_in (argument (spelled_in body.now args.now) place) }
{
    match args.value(body, place) {
        Some(ValueRef::Str(Some(text))) => text,
        _ => &[],
    }
}
