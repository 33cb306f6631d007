//! Playing the session.
ghost use Rattle.std.specs.Prelude.{◌≡◌, IfOk, OnOk, [], ◌∷◌, false};
ghost use Rattle.std.specs.List.{list_any};
ghost use Rattle.wl_session.specs.Meaning.{move_of, moves_of, reply_of, replies_of};
ghost use Rattle.program_demo.specs.Playing as playing;
ghost use Rattle.program_demo.specs.Playing.{Plays, Ran};
ghost use Rattle.program_demo.specs.Session.{Until, each_once, demo_steps, to_client, to_server};

use crate::session::{
    adding_globals, announcing_globals, binding_globals, drawing_surface, finishing_callback,
    getting_registry, list_of,
};
use std::alloc::{AllocError, Allocator};
use wl_objects::{NextError, SendError, Table};
use wl_server::GlobalError;
use wl_session::{Carried, Move, Pair, Reply};
use wl_sigs::Tables;

/// Plays the whole session. Each carry moves at most `piece` bytes.
pub fn play<T: Table>(
    alloc: &T::Alloc,
    tables: &Tables,
    pair: &mut Pair<'_, T>,
    piece: usize,
) -> Result<(), AllocError>
    ensures { OnOk result (Plays (demo_steps tables.now piece) pair.old pair.new) }
{
    play_all(pair, &adding_globals(alloc, tables)?)?;
    play_all(pair, &getting_registry(alloc)?)?;
    read_at_server(alloc, pair, piece)?;
    play_all(pair, &announcing_globals(alloc)?)?;
    read_at_client(alloc, pair, piece)?;
    play_all(pair, &binding_globals(alloc)?)?;
    read_at_server(alloc, pair, piece)?;
    play_all(pair, &finishing_callback(alloc)?)?;
    read_at_client(alloc, pair, piece)?;
    play_all(pair, &drawing_surface(alloc)?)?;
    read_at_server(alloc, pair, piece)?;
    read_at_client(alloc, pair, piece)
}

/// Carries all that waits to the server, and reads it there.
fn read_at_server<T: Table>(
    alloc: &T::Alloc,
    pair: &mut Pair<'_, T>,
    piece: usize,
) -> Result<(), AllocError>
    ensures { OnOk result (Plays (to_server piece) pair.old pair.new) }
{
    repeat(alloc, pair, Move::CarryToServer(piece))?;
    repeat(alloc, pair, Move::ServerNext)
}

/// Carries all that waits to the client, and reads it there.
fn read_at_client<T: Table>(
    alloc: &T::Alloc,
    pair: &mut Pair<'_, T>,
    piece: usize,
) -> Result<(), AllocError>
    ensures { OnOk result (Plays (to_client piece) pair.old pair.new) }
{
    repeat(alloc, pair, Move::CarryToClient(piece))?;
    repeat(alloc, pair, Move::ClientNext)
}

/// Repeats a carry or a read until nothing more is moved or read.
fn repeat<T: Table>(
    alloc: &T::Alloc,
    pair: &mut Pair<'_, T>,
    action: Move<T::Alloc>,
) -> Result<(), AllocError>
    ensures { OnOk result (Plays (Until (move_of action) ∷ []) pair.old pair.new) }
{
    let moves = list_of(alloc, action)?;
    'again: loop {
        let replies = run_all(pair, &moves)?;
        if !do_something(&replies) {
            return Ok(());
        }
    }
}

/// Makes each of these moves once.
fn play_all<T: Table>(pair: &mut Pair<'_, T>, moves: &[Move<T::Alloc>]) -> Result<(), AllocError>
    ensures { OnOk result (Plays (each_once (moves_of moves.now)) pair.old pair.new) }
{
    run_all(pair, moves)?;
    Ok(())
}

/// Makes these moves. The error is lack of memory, for the replies or for one of the moves.
fn run_all<T: Table>(
    pair: &mut Pair<'_, T>,
    moves: &[Move<T::Alloc>],
) -> Result<Vec<Reply<T::Alloc>, T::Alloc>, AllocError>
    ensures { IfOk result (λ replies.
        Ran pair.old (moves_of moves.now) (replies_of replies.items) pair.new) }
{
    let replies = pair.run(moves)?;
    if lack_memory(&replies) {
        return Err(AllocError);
    }
    Ok(replies)
}

/// Whether one of these moves was refused for lack of memory.
fn lack_memory<A: Allocator>(replies: &[Reply<A>]) -> bool
    ensures { result ≡ list_any (λ reply. playing.lacks_memory (reply_of reply)) replies.now }
{
    replies.iter().any(|reply| lacks_memory(reply))
}

/// Whether one of these moves did something.
fn do_something<A: Allocator>(replies: &[Reply<A>]) -> bool
    ensures { result ≡ list_any (λ reply. playing.does_something (reply_of reply)) replies.now }
{
    replies.iter().any(|reply| does_something(reply))
}

/// Whether a carry moved something, or a read found a message.
fn does_something<A: Allocator>(reply: &Reply<A>) -> bool
    ensures { result ≡ playing.does_something (reply_of reply.now) }
{
    match reply {
        Reply::CarryToServer(Carried::Moved(fed)) | Reply::CarryToClient(Carried::Moved(fed)) => {
            fed.bytes > 0
        }
        Reply::ServerNext(Ok(Some(_))) | Reply::ClientNext(Ok(Some(_))) => true,
        _ => false,
    }
}

/// Whether a move was refused for lack of memory.
fn lacks_memory<A: Allocator>(reply: &Reply<A>) -> bool
    ensures { result ≡ playing.lacks_memory (reply_of reply.now) }
{
    matches!(
        reply,
        Reply::ClientSend(Err(SendError::Memory))
            | Reply::ClientBind(Err(SendError::Memory))
            | Reply::ServerSend(Err(SendError::Memory))
            | Reply::AddGlobal(Err(GlobalError::Memory))
            | Reply::Announce(Err(SendError::Memory))
            | Reply::CarryToServer(Carried::Memory)
            | Reply::CarryToClient(Carried::Memory)
            | Reply::ClientNext(Err(NextError::Memory))
            | Reply::ServerNext(Err(NextError::Memory))
    )
}
