//! The moves of the session.
ghost use Rattle.std.specs.Prelude.{◌≡◌, IfOk, [], ◌∷◌, unwrap_or};
ghost use Rattle.wl_session.specs.Meaning.{args_of, move_of, moves_of};
ghost use Rattle.theory_connection.specs.Pair.{AddGlobal, ClientBind, ClientSend, ServerSend};
ghost use Rattle.program_demo.specs.Moves as session;

use crate::objects::{CALLBACK, COMPOSITOR, DISPLAY, REGISTRY, SURFACE};
use std::alloc::{AllocError, Allocator};
use wl_objects::{DISPLAY as DISPLAY_INTERFACE, Object};
use wl_session::{Move, SendArg};
use wl_sigs::Tables;
use wl_sigs::event::wl_callback;
use wl_sigs::request::{wl_compositor, wl_display, wl_surface};

/// A list of moves.
pub type Moves<A> = Vec<Move<A>, A>;

/// The server adds two globals.
pub fn adding_globals<A: Allocator + Clone + Drop>(
    alloc: &A,
    tables: &Tables,
) -> Result<Moves<A>, AllocError>
    ensures { IfOk result (λ moves. moves_of moves.items ≡ session.adding_globals tables.now) }
{
    let mut moves = Vec::with_capacity(alloc.clone()?, 2)?;
    moves.push_reserved(global(tables, b"wl_compositor", 6));
    moves.push_reserved(global(tables, b"wl_seat", 9));
    Ok(moves)
}

/// The client asks for the registry.
pub fn getting_registry<A: Allocator + Clone + Drop>(alloc: &A) -> Result<Moves<A>, AllocError>
    ensures { IfOk result (λ moves. moves_of moves.items ≡ session.getting_registry) }
{
    let args = list_of(alloc, SendArg::New)?;
    list_of(alloc, request(DISPLAY, wl_display::GET_REGISTRY, args))
}

/// The server writes the events that the registry still needs.
pub fn announcing_globals<A: Allocator + Clone + Drop>(alloc: &A) -> Result<Moves<A>, AllocError>
    ensures { IfOk result (λ moves. moves_of moves.items ≡ session.announcing_globals) }
{
    list_of(alloc, Move::Announce)
}

/// The client binds both globals and asks for a callback.
pub fn binding_globals<A: Allocator + Clone + Drop>(alloc: &A) -> Result<Moves<A>, AllocError>
    ensures { IfOk result (λ moves. moves_of moves.items ≡ session.binding_globals) }
{
    let callback = list_of(alloc, SendArg::New)?;
    let mut moves = Vec::with_capacity(alloc.clone()?, 3)?;
    moves.push_reserved(bind(alloc, 1, b"wl_compositor", 6)?);
    moves.push_reserved(bind(alloc, 2, b"wl_seat", 9)?);
    moves.push_reserved(request(DISPLAY, wl_display::SYNC, callback));
    Ok(moves)
}

/// The server answers the callback.
pub fn finishing_callback<A: Allocator + Clone + Drop>(alloc: &A) -> Result<Moves<A>, AllocError>
    ensures { IfOk result (λ moves. moves_of moves.items ≡ session.finishing_callback) }
{
    let args = list_of(alloc, SendArg::Uint(1))?;
    list_of(alloc, event(CALLBACK, wl_callback::DONE, args))
}

/// The client makes a surface, commits it and destroys it.
pub fn drawing_surface<A: Allocator + Clone + Drop>(alloc: &A) -> Result<Moves<A>, AllocError>
    ensures { IfOk result (λ moves. moves_of moves.items ≡ session.drawing_surface) }
{
    let surface = list_of(alloc, SendArg::New)?;
    let mut moves = Vec::with_capacity(alloc.clone()?, 3)?;
    moves.push_reserved(request(COMPOSITOR, wl_compositor::CREATE_SURFACE, surface));
    moves.push_reserved(request(SURFACE, wl_surface::COMMIT, Vec::new(alloc.clone()?)));
    moves.push_reserved(request(SURFACE, wl_surface::DESTROY, Vec::new(alloc.clone()?)));
    Ok(moves)
}

/// The move that adds a global. A name that is not in the tables means wl_display, which no server
/// can add.
fn global<A: Allocator>(tables: &Tables, name: &[u8], version: u32) -> Move<A>
    ensures { move_of result ≡ AddGlobal (session.interface_or_display tables.now name.now)
        version }
{
    Move::AddGlobal {
        iface: tables.interface(name).unwrap_or(DISPLAY_INTERFACE),
        version,
    }
}

/// The move that binds a global.
fn bind<A: Allocator + Clone + Drop>(
    alloc: &A,
    name: u32,
    iface: &[u8],
    version: u32,
) -> Result<Move<A>, AllocError>
    ensures { IfOk result (λ r.
        move_of r ≡ ClientBind session.the_registry name iface.now version) }
{
    Ok(Move::ClientBind {
        registry: REGISTRY,
        name,
        iface: Vec::from_slice(alloc.clone()?, iface)?,
        version,
    })
}

/// The move that sends a request.
fn request<A: Allocator>(target: Object, opcode: u16, args: Vec<SendArg<A>, A>) -> Move<A>
    ensures { move_of result ≡ ClientSend target opcode (args_of args.items) }
{
    Move::ClientSend {
        target,
        opcode,
        args,
    }
}

/// The move that sends an event.
fn event<A: Allocator>(target: Object, opcode: u16, args: Vec<SendArg<A>, A>) -> Move<A>
    ensures { move_of result ≡ ServerSend target opcode (args_of args.items) }
{
    Move::ServerSend {
        target,
        opcode,
        args,
    }
}

/// The list of one item.
pub fn list_of<X: Drop, A: Allocator + Clone + Drop>(
    alloc: &A,
    item: X,
) -> Result<Vec<X, A>, AllocError>
    ensures { IfOk result (λ items. items.items ≡ item ∷ []) }
{
    let mut items = Vec::with_capacity(alloc.clone()?, 1)?;
    items.push_reserved(item);
    Ok(items)
}
