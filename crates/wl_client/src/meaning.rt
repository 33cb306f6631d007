//! What the events of wl_display mean to a client: their reports and changes.
ghost use Rattle.std.specs.Prelude.{◌≡◌, ℕ, List, None, true, false};
ghost use Rattle.wl_sigs.specs.Side.TheVariants.{Event};
ghost use Rattle.wl_sigs.specs.Tables.{Interface};
ghost use Rattle.wl_client.specs.Outlines.{outline_entry, outlined};
ghost use Rattle.wl_client.specs.Reports.{argument, delete_report, error_report, number_in};
ghost use Rattle.wl_client.specs.Steps.{CanChange, changed, end_with};
ghost use Rattle.wl_objects.specs.declared.parsed.ParsedArg.{ParsedArg};
ghost use Rattle.wl_objects.specs.Messages.{after_delete_id, reader_of};
ghost use Rattle.wl_objects.specs.Parsed.{AreParsed};
ghost use Rattle.wl_objects.specs.Seen.{received_of};

use crate::arguments::{id_at, number_at};
use crate::changes::{Change, GlobalChange, ObjectChange};
use crate::outline::Outline;
use wl_objects::{Entry, Object, Objects, Received, Table};

/// The meaning of wl_display.error: its report, its changes, and the entry of the object that it
/// names.
pub(crate) fn meaning_of_error<T: Table>(
    objects: &Objects<T>,
    message: &Received<'_, '_>,
) -> (Outline, Change, Option<Entry>)
    ensures outline { (tables : List Interface) (tokens : List ℕ)
        → AreParsed (reader_of tables Event objects.now) message.now.body.now message.now.args.now
        (received_of message.now).values
        → outlined message.now.body.now message.now.args.now tokens result.0
        ≡ error_report (end_with tables objects.now tokens) (received_of message.now).values }
    ensures change { result.1 ≡ record {
      made = None;
      objects = ObjectChange.Nothing;
      globals = GlobalChange.Nothing;
      last = true;
    } }
    ensures entry { result.2 ≡ outline_entry objects.now result.0 }
{
    let id = id_at(message.args, message.body, 0);
    let outline = Outline::Error {
        id,
        named: message.args.object(0),
        code: number_at(message.args, message.body, 1),
    };
    (outline, no_change(true), objects.look(id))
}

/// No change to objects and globals.
fn no_change(last: bool) -> Change
    ensures { result ≡ record {
      made = None;
      objects = ObjectChange.Nothing;
      globals = GlobalChange.Nothing;
      last = last;
    } }
{
    Change {
        made: None,
        objects: ObjectChange::Nothing,
        globals: GlobalChange::Nothing,
        last,
    }
}

/// The meaning of wl_display.delete_id: its object, if it has one, is removed.
pub(crate) fn meaning_of_delete_id<T: Table>(
    objects: &Objects<T>,
    message: &Received<'_, '_>,
) -> (Outline, Change, Option<Entry>)
    ensures outline { (tables : List Interface) (body tokens : List ℕ) (args : List ParsedArg)
        → outlined body args tokens result.0
        ≡ delete_report (end_with tables objects.now tokens)
        (number_in (argument (received_of message.now).values 0)) }
    ensures made { result.1.made ≡ None }
    ensures changed { changed objects.now result.1.objects
        ≡ after_delete_id objects.now (number_in (argument (received_of message.now).values 0)) }
    ensures can { CanChange objects.now result.1.objects }
    ensures globals { result.1.globals ≡ GlobalChange.Nothing }
    ensures last { result.1.last ≡ false }
    ensures entry { result.2 ≡ outline_entry objects.now result.0 }
{
    let id = number_at(message.args, message.body, 0);
    match objects.client().look(id) {
        Some(entry) if id != 1 => (
            Outline::Deleted {
                object: Object {
                    id,
                    birth: entry.birth,
                },
            },
            Change {
                made: None,
                objects: ObjectChange::Close(id),
                globals: GlobalChange::Nothing,
                last: false,
            },
            Some(entry),
        ),
        _ => (Outline::Stray { id }, no_change(false), None),
    }
}
