//! An argument of a report, translated to an argument of a call.
ghost use Rattle.std.specs.Prelude.{◌≡◌, true, MatchOption};
ghost use Rattle.wl_objects.specs.Parsed.{lent_got};
ghost use Rattle.wl_objects.specs.Writing.{given_of};
ghost use Rattle.wl_twins.specs.Forwarding.{forwarded, is_bound, object_in};

use wl_objects::{Arg, GotRef, Named, Object};

/// The object that an argument names, live or dead.
pub(crate) fn object_of(argument: GotRef<'_>) -> Option<Object>
    ensures { result ≡ object_in (lent_got argument.entry) }
{
    match argument {
        GotRef::Obj(Named::Live(object)) => Some(object),
        GotRef::Obj(Named::Dead(object)) => Some(object),
        _ => None,
    }
}

/// The argument with the object that it names replaced by this object or by none; `None` for a
/// bind's new object.
pub(crate) fn forward<'a>(argument: GotRef<'a>, twin: Option<Object>) -> Option<Arg<'a>>
    ensures { MatchOption result (is_bound (lent_got argument.entry) ≡ true)
        (λ arg. given_of arg ≡ forwarded twin (lent_got argument.entry)) }
{
    match argument {
        GotRef::Int(number) => Some(Arg::Int(number)),
        GotRef::Uint(number) => Some(Arg::Uint(number)),
        GotRef::Fixed(number) => Some(Arg::Fixed(number)),
        GotRef::Str(None) => Some(Arg::Str(None)),
        GotRef::Str(Some(text)) => Some(Arg::Str(Some(text))),
        GotRef::Obj(_) => Some(Arg::Obj(twin)),
        GotRef::New(_) => Some(Arg::New),
        GotRef::Bound { .. } => None,
        GotRef::Array(bytes) => Some(Arg::Array(bytes)),
        GotRef::Fd(token) => Some(Arg::Fd(token)),
    }
}
