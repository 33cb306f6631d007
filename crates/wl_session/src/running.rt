//! Lists of moves.
ghost use Rattle.std.specs.Prelude.{◌≡◌, ◌≤◌, IfOk, OnErr, vec_capacity};
ghost use Rattle.std.specs.List.{All};
ghost use Rattle.theory_connection.specs.World.{World};
ghost use Rattle.theory_connection.specs.Pair.{Does};
ghost use Rattle.theory_connection.specs.Stands.{Stands};
ghost use Rattle.theory_connection.specs.Runs.{DoesAll, Runs, IsMove};
ghost use Rattle.theory_recording.specs.Linked.{Linked, RunsLinked};
ghost use Rattle.wl_session.specs.Meaning.{move_of, moves_of, reply_of, replies_of, arguments};

use crate::lending::lend;
use crate::moves::{Move, Reply};
use crate::pair::Pair;
use std::alloc::{AllocError, Allocator};
use wl_objects::{Arg, Table};

impl<'t, T: Table> Pair<'t, T> {
    /// Makes these moves in order, and returns one reply for each.
    ///
    /// Room for all replies, and for the longest list of arguments, is allocated first. The error
    /// is returned only then, before anything was done. A move that runs out of memory later has
    /// the reply that its call gives for that, and the moves after it are still made.
    pub fn run(
        &mut self,
        moves: &[Move<T::Alloc>],
    ) -> Result<Vec<Reply<T::Alloc>, T::Alloc>, AllocError>
        // each move does what its call does, and its reply is what the call returns
        ensures does { IfOk result
            (λ replies. DoesAll self.old (moves_of moves.now) (replies_of replies.items) self.new) }

        // hence, for every world that the pair represents, this is a run of that world
        ensures runs { IfOk result
            (λ replies. (world : World) → Stands self.old world
            → Runs self.old world (moves_of moves.now) (replies_of replies.items) self.new) }

        // which keeps a linked pair linked, so what it records is lawful
        ensures links { IfOk result
            (λ replies. (world : World) → Linked self.old world
            → RunsLinked self.old world (moves_of moves.now) (replies_of replies.items) self.new) }
        ensures err { OnErr result (self.new ≡ self.old) }
    {
        let mut replies = Vec::with_capacity(self.alloc.clone()?, moves.len())?;
        let mut args = Vec::with_capacity(self.alloc.clone()?, most_arguments(moves))?;
        'moves: for action in moves {
            let reply = self.step(action, &mut args);
            replies.push_reserved(reply);
        }
        Ok(replies)
    }

    /// Makes one move. The list lends it its arguments.
    fn step<'m>(
        &mut self,
        action: &'m Move<T::Alloc>,
        list: &mut Vec<Arg<'m>, T::Alloc>,
    ) -> Reply<T::Alloc>
        requires { arguments action.now ≤ vec_capacity list.old }
        ensures does { Does self.old (move_of action.now) (reply_of result) self.new }
        ensures in_range { IsMove (move_of action.now) }
        ensures capacity { vec_capacity list.new ≡ vec_capacity list.old }
    {
        match action {
            Move::ClientSend {
                target,
                opcode,
                args,
            } => {
                lend(args.as_slice(), list);
                Reply::ClientSend(self.client_send(*target, *opcode, list.as_slice()))
            }
            Move::ClientBind {
                registry,
                name,
                iface,
                version,
            } => Reply::ClientBind(self.client_bind(*registry, *name, iface.as_slice(), *version)),
            Move::ServerSend {
                target,
                opcode,
                args,
            } => {
                lend(args.as_slice(), list);
                Reply::ServerSend(self.server_send(*target, *opcode, list.as_slice()))
            }
            Move::ServerDrop { object } => Reply::ServerDrop(self.server_drop(*object)),
            Move::PostError { object, code, text } => {
                Reply::PostError(self.post_error(*object, *code, text.as_slice()))
            }
            Move::AddGlobal { iface, version } => {
                Reply::AddGlobal(self.add_global(*iface, *version))
            }
            Move::Withdraw { name } => Reply::Withdraw(self.withdraw(*name)),
            Move::Announce => Reply::Announce(self.announce()),
            Move::CarryToServer(most) => Reply::CarryToServer(self.carry_to_server(*most)),
            Move::CarryToClient(most) => Reply::CarryToClient(self.carry_to_client(*most)),
            Move::ClientNext => Reply::ClientNext(self.client_next()),
            Move::ServerNext => Reply::ServerNext(self.server_next()),
        }
    }
}

/// The greatest number of arguments that one of these moves passes to a call.
fn most_arguments<A: Allocator>(moves: &[Move<A>]) -> usize
    ensures { All (λ action. arguments action ≤ result) moves.now }
{
    let mut most = 0;
    'moves: for action in moves {
        most = most.max(arguments(action));
    }
    most
}

/// The number of arguments that a move passes to a call.
fn arguments<A: Allocator>(action: &Move<A>) -> usize
    ensures { result ≡ arguments action.now }
{
    match action {
        Move::ClientSend { args, .. } | Move::ServerSend { args, .. } => args.len(),
        _ => 0,
    }
}
