//! Lending the arguments of a move to its call.
ghost use Rattle.std.specs.Prelude.{◌≡◌, ◌≤◌, length, vec_capacity};
ghost use Rattle.wl_objects.specs.Writing.{given, given_of};
ghost use Rattle.theory_connection.specs.World.{Each};
ghost use Rattle.theory_connection.specs.Runs.{FitsWords};
ghost use Rattle.wl_session.specs.Meaning.{arg_of, args_of};

use crate::moves::SendArg;
use std::alloc::Allocator;
use wl_objects::Arg;
use wl_wire::Fixed;

/// Replaces the contents of the list by these arguments, borrowed.
pub fn lend<'m, A: Allocator, B: Allocator>(args: &'m [SendArg<A>], list: &mut Vec<Arg<'m>, B>)
    requires { length args.now ≤ vec_capacity list.old }
    ensures same { given list.new.items ≡ args_of args.now }
    ensures in_range { Each FitsWords (args_of args.now) }
    ensures capacity { vec_capacity list.new ≡ vec_capacity list.old }
{
    list.clear();
    for arg in args {
        list.push_reserved(lend_one(arg));
    }
}

fn lend_one<A: Allocator>(arg: &SendArg<A>) -> Arg<'_>
    ensures same { given_of result ≡ arg_of arg.now }
    ensures in_range { FitsWords (arg_of arg.now) }
{
    match arg {
        SendArg::Int(z) => Arg::Int(*z),
        SendArg::Uint(n) => Arg::Uint(*n),
        SendArg::Fixed(z) => Arg::Fixed(Fixed::from_raw(z.raw())),
        SendArg::Str(Some(text)) => Arg::Str(Some(text.as_slice())),
        SendArg::Str(None) => Arg::Str(None),
        SendArg::Obj(object) => Arg::Obj(*object),
        SendArg::New => Arg::New,
        SendArg::Array(bytes) => Arg::Array(bytes.as_slice()),
        SendArg::Fd(token) => Arg::Fd(*token),
    }
}
