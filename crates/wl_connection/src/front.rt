//! The message at the front of an inbox, client or server.
ghost use Rattle.std.specs.Prelude.{◌≡◌};
ghost use Rattle.wl_wire.specs.Word.{IsHeader};
ghost use Rattle.wl_objects.specs.Messages.{reader_of, received};
ghost use Rattle.wl_connection.specs.Core.{HasDisplay};
ghost use Rattle.wl_connection.specs.FirstMessage.{IsFrontMeaning, IsMeaningOf};

use crate::endpoint::Endpoint;
use crate::role::Meaning;
use wl_message::Frame;
use wl_objects::{Fault, Objects, ObjectsLookup, ParsedArgs, SideTables, Table, receive};
use wl_sigs::Tables;

/// The first message, if it is whole: what it means to the end's role, or its fault. Only the
/// parsed arguments change.
pub fn first_message<T: Table, R: Meaning<T>>(
    end: &mut Endpoint<'_, T>,
    role: &R,
) -> Result<Option<R::Pending>, Fault>
    ensures same { end.new.core ≡ end.old.core }
    ensures comes { IsFrontMeaning R.SIDE (R.Means role.now) end.old.core end.new.args
        result }
{
    let Endpoint { core, args } = end;
    let frame = match core.inbox.frame() {
        Ok(Some(frame)) => frame,
        Ok(None) => return Ok(None),
        Err(_) => return Err(Fault::BadSize),
    };
    match read_frame(args, role, core.tables, &core.objects, frame) {
        Ok(pending) => Ok(Some(pending)),
        Err(fault) => Err(fault),
    }
}

/// Parses the arguments of a message, and returns what it means to a role, or its fault.
fn read_frame<T: Table, R: Meaning<T>>(
    args: &mut ParsedArgs,
    role: &R,
    tables: &Tables,
    objects: &Objects<T>,
    frame: Frame<'_>,
) -> Result<R::Pending, Fault>
    requires display { HasDisplay objects.now }
    // Always true; known here because the header was read.
    ensures header { IsHeader frame.entry.header }
    ensures comes { IsMeaningOf R.SIDE (R.Means role.now) tables.now objects.now
        frame.entry.header frame.entry.body.now args.new
        (received tables.now R.SIDE (reader_of tables.now R.SIDE objects.now)
        frame.entry.header frame.entry.body.now frame.entry.tokens) result }
{
    let header = frame.header;
    let writer = SideTables {
        tables,
        side: R::SIDE,
    };
    let lookup = ObjectsLookup { writer, objects };
    let received = receive(args, writer, &lookup, header, frame.body, frame.tokens);
    let message = match received {
        Ok(message) => message,
        Err(fault) => return Err(fault),
    };
    role.pending_of(tables, objects, header, &message)
}
