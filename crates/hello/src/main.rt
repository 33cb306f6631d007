//! A client and a server in one process, with a buffer in place of a socket. The page of the crate
//! `wl` explains it.
#![tactic(auto)]

ghost use Rattle.std.specs.Prelude.{◌≤◌, length};

use anyhow::{Context, Result, bail};
use std::alloc::Global;
use std::io::Write;
use wl::{
    Arg, Direction, End, Got, GotRef, Incoming, Limit, Object, OwnedArgs, OwnedIncoming, Recording,
    Sizes, SlotTable, Tables, event, request, trace,
};

type Client<'t> = wl::Client<'t, SlotTable>;

type Server<'t> = wl::Server<'t, SlotTable>;

/// Room for 65,536 bytes and 64 tokens in each queue.
const SIZES: Sizes = Sizes {
    out_bytes: 65_536,
    out_tokens: 64,
    in_bytes: 65_536,
    in_tokens: 64,
    limit: Limit::USUAL,
};

fn main(rt: HostRuntime) -> Result<()> {
    let tables = Tables::core(rt.alloc())?;
    let wire = session(rt.alloc(), &tables)?;
    let (lines, _verdict) = trace(rt.alloc(), &wire, &tables, Limit::USUAL)?;
    rt.stdout().write_all(lines.as_slice())?;
    Ok(())
}

/// What a client and a server with these tables wrote to each other.
fn session(alloc: Global, tables: &Tables) -> Result<Recording> {
    let mut client = Client::new(alloc, tables, SIZES)?;
    let mut server = Server::new(alloc, tables, SIZES)?;
    talk(tables, &mut client, &mut server, Recording::new(alloc))
}

/// The client makes a surface, and waits until the server has read all that it wrote.
fn talk(
    tables: &Tables,
    client: &mut Client<'_>,
    server: &mut Server<'_>,
    mut wire: Recording,
) -> Result<Recording> {
    let interface = tables.interface(b"wl_compositor").context("no interface")?;
    server.add_global(interface, 6)?;

    let registry = create(client, client.display(), request::wl_display::GET_REGISTRY)?;
    round_trip(client, server, &mut wire)?;
    let compositor = bind(client, registry)?;
    let surface = create(client, compositor, request::wl_compositor::CREATE_SURFACE)?;
    client.send(surface, request::wl_surface::COMMIT, &[])?;
    let callback = create(client, client.display(), request::wl_display::SYNC)?;
    round_trip(client, server, &mut wire)?;
    wait_for(client, callback, event::wl_callback::DONE)?;
    Ok(wire)
}

/// Sends a request whose one argument is a new object, and returns that object.
fn create(client: &mut Client<'_>, target: Object, opcode: u16) -> Result<Object> {
    let made = client.send(target, opcode, &[Arg::New])?;
    made.context("the request makes no object")
}

/// Binds the global that the registry announces next. Its report is used while the client is
/// called, so it owns its arguments.
fn bind(client: &mut Client<'_>, registry: Object) -> Result<Object> {
    for _ in 0..u64::MAX {
        let Some(report) = client.next_owned()? else {
            break;
        };
        if let OwnedIncoming::Event {
            target,
            opcode,
            args,
        } = report
        {
            if target == registry && opcode == event::wl_registry::GLOBAL {
                return bind_announced(client, registry, &args);
            }
        }
    }
    bail!("no global was announced")
}

/// Binds the global that these arguments of wl_registry.global announce.
fn bind_announced(client: &mut Client<'_>, registry: Object, args: &OwnedArgs) -> Result<Object> {
    let [Got::Uint(name), Got::Str(Some(iface)), Got::Uint(version)] = args.as_slice() else {
        bail!("the arguments are not those of wl_registry.global");
    };
    Ok(client.bind(registry, *name, iface.as_slice(), *version)?)
}

/// Reads events up to the next one of this kind for this object.
fn wait_for(client: &mut Client<'_>, object: Object, wanted: u16) -> Result<()> {
    for _ in 0..u64::MAX {
        let Some(report) = client.next()? else {
            break;
        };
        if let Incoming::Event { target, opcode, .. } = report {
            if target == object && opcode == wanted {
                return Ok(());
            }
        }
    }
    bail!("the event did not come")
}

/// Reads the requests that came, does what they ask, and announces the globals to new registries.
fn serve(server: &mut Server<'_>) -> Result<()> {
    let display = server.display();
    for _ in 0..u64::MAX {
        let Some(mut read) = server.next()? else {
            break;
        };
        if read.target == display && read.opcode == request::wl_display::SYNC {
            if let Some(GotRef::New(callback)) = read.args.next() {
                server.send(callback, event::wl_callback::DONE, &[Arg::Uint(0)])?;
            }
        }
    }
    server.announce()?;
    Ok(())
}

/// Carries what the client wrote to the server, and the server's events to the client.
fn round_trip(
    client: &mut Client<'_>,
    server: &mut Server<'_>,
    wire: &mut Recording,
) -> Result<()> {
    let (mut bytes, mut tokens) = ([0; 4096], [0; 20]);
    to_server(client, server, wire, &mut bytes, &mut tokens)?;
    serve(server)?;
    to_client(server, client, wire, &mut bytes, &mut tokens)
}

/// Carries what waits at the client to the server, as much as these slices hold.
fn to_server(
    client: &mut Client<'_>,
    server: &mut Server<'_>,
    wire: &mut Recording,
    bytes: &mut [u8],
    tokens: &mut [u32],
) -> Result<()>
    requires { length tokens.old ≤ 65536 }
{
    let taken = client.take(bytes, tokens);
    let (sent, descriptors) = (&bytes[..taken.bytes], &tokens[..taken.tokens]);
    wire.add(Direction::ToServer, sent, taken.tokens as u32)?;
    server.feed(sent, descriptors);
    Ok(())
}

/// Carries what waits at the server to the client, as much as these slices hold.
fn to_client(
    server: &mut Server<'_>,
    client: &mut Client<'_>,
    wire: &mut Recording,
    bytes: &mut [u8],
    tokens: &mut [u32],
) -> Result<()>
    requires { length tokens.old ≤ 65536 }
{
    let taken = server.take(bytes, tokens);
    let (sent, descriptors) = (&bytes[..taken.bytes], &tokens[..taken.tokens]);
    wire.add(Direction::ToClient, sent, taken.tokens as u32)?;
    client.feed(sent, descriptors);
    Ok(())
}
