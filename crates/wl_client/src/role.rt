//! What a client keeps besides its endpoint, and how it reads an event with it.
use crate::changes::{GlobalChange, ObjectChange, change_of, end_object, replaced_by};
use crate::globals::Remembered;
use crate::meaning::{meaning_of_delete_id, meaning_of_error};
use crate::outline::Outline;
use crate::pending::PendingEvent;
use crate::report::OwnedIncoming;
use std::alloc::{AllocError, Allocator};
use wl_connection::{Endpoint, Meaning, Role, first_message};
use wl_object_map::Maker;
use wl_objects::{DISPLAY, Fault, NextError, Object, Objects, Received, State, Table};
use wl_sigs::event::wl_display::{DELETE_ID, ERROR};
use wl_sigs::{Side, Tables};
use wl_wire::Header;

/// What a client keeps besides its endpoint.
#[derive(Drop)]
pub(crate) struct ClientRole<A: Allocator> {
    /// The globals that were announced to it.
    pub(crate) globals: Remembered<A>,
    /// What the last message read made.
    pub(crate) made: Option<Object>,
    /// The live object that this one replaced.
    pub(crate) replaced: Option<Object>,
}

impl<T: Table> Meaning<T> for ClientRole<T::Alloc> {
    ghost use Rattle.wl_sigs.specs.Side.TheVariants.{Event as event_side};
    ghost use Rattle.wl_client.specs.Reading.{IsPendingOf};

    type Pending = PendingEvent;

    const SIDE: Side = Side::Event;

    ghost SIDE = { event_side };

    ghost Means = { λ kept. IsPendingOf };

    fn pending_of(
        &self,
        tables: &Tables,
        objects: &Objects<T>,
        header: Header,
        message: &Received<'_, '_>,
    ) -> Result<PendingEvent, Fault> {
        let opcode = header.opcode;
        let (target, tokens) = (message.target, message.tokens);
        let (outline, change, entry) = match (message.entry.iface, opcode) {
            (DISPLAY, ERROR) => meaning_of_error(objects, message),
            (DISPLAY, DELETE_ID) => meaning_of_delete_id(objects, message),
            _ => {
                let outline = match message.entry.state {
                    State::Zombie => Outline::Discarded {
                        target,
                        opcode,
                        tokens,
                    },
                    State::Live => Outline::Event {
                        target,
                        opcode,
                        birth: objects.births(Maker::Server),
                    },
                };
                let change = change_of(tables, opcode, message);
                (outline, change, Some(message.entry))
            }
        };
        Ok(PendingEvent {
            outline,
            change,
            entry,
            size: header.size,
            tokens,
        })
    }
}

impl<T: Table> Role<T> for ClientRole<T::Alloc> {
    ghost use Rattle.wl_client.specs.State.{State as ClientState, IsSound as IsSoundClient};
    ghost use Rattle.wl_client.specs.Reports.{Report as ClientReport, client_role};
    ghost use Rattle.wl_client.specs.Seen.{report_of};
    ghost use Rattle.wl_client.specs.Steps.{client_state};
    ghost use Rattle.wl_client.specs.Reading.{IsNextEvent, front_report};
    ghost use Rattle.wl_client.specs.Reading.{applied_report};

    type Owned = OwnedIncoming<T::Alloc>;

    ghost Report = { ClientReport };

    ghost State = { ClientState };

    ghost state = { λ core kept. client_state core kept.globals kept.made kept.replaced };

    ghost role = { client_role };

    ghost owned = { report_of };

    ghost fronts = { front_report };

    ghost tells = { applied_report };

    ghost IsSound = { λ core kept. IsSoundClient core };

    ghost IsAhead = { λ core kept args event. IsNextEvent core args event };

    #[tactic(auto, using(crate::proofs::Fronts::fault_found))]
    fn find(&self, end: &mut Endpoint<'_, T>) -> Result<Option<PendingEvent>, NextError> {
        if end.core.failed {
            return Err(NextError::Failed);
        }
        match first_message(end, self) {
            Ok(event) => Ok(event),
            Err(fault) => {
                end.core.failed = true;
                Err(NextError::Fault {
                    fault,
                    offset: end.core.read,
                })
            }
        }
    }

    fn copy(
        &self,
        end: &mut Endpoint<'_, T>,
        alloc: &T::Alloc,
        event: &PendingEvent,
    ) -> Result<OwnedIncoming<T::Alloc>, AllocError> {
        let tokens = end.core.first_tokens(event.tokens);
        let tokens = &tokens[..event.tokens];
        let body = end.core.inbox.body();
        event.outline.to_owned(alloc, &end.args, body, tokens)
    }

    fn apply(&mut self, end: &mut Endpoint<'_, T>, event: &PendingEvent) -> Result<(), AllocError> {
        match event.change.made {
            None => {
                self.made = None;
                self.replaced = None;
            }
            Some(new) => {
                let replaced = replaced_by(&end.core, new);
                self.made = Some(end.core.open_made(new)?);
                self.replaced = replaced;
            }
        }
        // Nothing is allocated from here on.
        end.core.pass(event.size, event.tokens);
        match event.change.objects {
            ObjectChange::Nothing => {}
            ObjectChange::Zombie(id) => end_object(&mut end.core, id),
            ObjectChange::Close(id) => end.core.close(id),
        }
        end.core.failed = event.change.last;
        match event.change.globals {
            GlobalChange::Nothing => {}
            GlobalChange::Forget(name) => self.globals.forget(name),
            GlobalChange::Remember(global) => self.globals.remember(global),
        }
        Ok(())
    }
}
