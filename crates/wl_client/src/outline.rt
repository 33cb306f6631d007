//! The report of a message without its arguments, body and tokens, which a report borrows or
//! copies.
ghost use Rattle.std.specs.Prelude.{◌≡◌, IfOk, OnErr, ◌≤◌, true, length, take};
ghost use Rattle.wl_sigs.specs.Tables.{max_args};
ghost use Rattle.wl_object_map.specs.Objects.{Objects};
ghost use Rattle.wl_client.specs.Reports.{entry_of, needs_memory};
ghost use Rattle.wl_client.specs.Seen.{report_of};
ghost use Rattle.wl_client.specs.Outlines.{lent_report, outline_entry, outlined};

use crate::arguments::text_at;
use crate::report::{Incoming, OwnedIncoming};
use crate::tokens::Tokens;
use std::alloc::{AllocError, Allocator};
use wl_connection::Endpoint;
use wl_objects::{Args, Named, Object, ParsedArgs, Table};
use wl_wire::Bytes;

/// The report of a message. Its arguments and tokens are added when the report is borrowed or
/// copied.
#[derive(Clone, Copy, Debug)]
pub(crate) enum Outline {
    Event {
        target: Object,
        opcode: u16,
        /// The birth of the object that the message made.
        birth: u64,
    },
    Discarded {
        target: Object,
        opcode: u16,
        /// How many tokens the message took.
        tokens: usize,
    },
    Deleted {
        object: Object,
    },
    Stray {
        id: u32,
    },
    Error {
        id: u32,
        named: Named,
        code: u32,
    },
}

impl Outline {
    /// The report of the message that was applied last, borrowing from the end.
    pub(crate) fn lend<'a, T: Table>(&self, end: &'a Endpoint<'_, T>) -> Incoming<'a>
        ensures report { lent_report result ≡ outlined end.now.core.inbox.last end.now.args
            end.now.core.inbox.last_tokens self.now }
        ensures entry { (view : Objects)
            → entry_of view (lent_report result) ≡ outline_entry view self.now }
    {
        let Endpoint { core, args } = end;
        let (body, tokens) = core.inbox.last_with_tokens();
        match self {
            Outline::Event {
                target,
                opcode,
                birth,
            } => Incoming::Event {
                target: *target,
                opcode: *opcode,
                args: Args::new(args, body, tokens, *birth),
            },
            Outline::Discarded {
                target,
                opcode,
                tokens: count,
            } => Incoming::Discarded {
                target: *target,
                opcode: *opcode,
                tokens: first(tokens, *count),
            },
            Outline::Deleted { object } => Incoming::Deleted { object: *object },
            Outline::Stray { id } => Incoming::Stray { id: *id },
            Outline::Error { id, named, code } => Incoming::Error {
                id: *id,
                named: *named,
                code: *code,
                text: text_at(args, body, 2),
            },
        }
    }

    /// The report of a message with these arguments, this body and these tokens, owned. Memory is
    /// needed only for the arguments of an event that has some, and for the text of an error.
    pub(crate) fn to_owned<A: Allocator + Clone + Drop>(
        &self,
        alloc: &A,
        args: &ParsedArgs,
        body: &[u8],
        tokens: &[u32],
    ) -> Result<OwnedIncoming<A>, AllocError>
        requires { length tokens.now ≤ max_args }
        ensures ok { IfOk result
            (λ report. report_of report ≡ outlined body.now args.now tokens.now self.now) }
        ensures err { OnErr result
            (needs_memory (outlined body.now args.now tokens.now self.now) ≡ true) }
        ensures entry { IfOk result (λ report. (view : Objects)
            → entry_of view (report_of report) ≡ outline_entry view self.now) }
    {
        match self {
            Outline::Event {
                target,
                opcode,
                birth,
            } => Ok(OwnedIncoming::Event {
                target: *target,
                opcode: *opcode,
                args: Args::new(args, body, tokens, *birth).to_owned(alloc)?,
            }),
            Outline::Discarded {
                target,
                opcode,
                tokens: count,
            } => Ok(OwnedIncoming::Discarded {
                target: *target,
                opcode: *opcode,
                tokens: Tokens::copy_of(first(tokens, *count)),
            }),
            Outline::Deleted { object } => Ok(OwnedIncoming::Deleted { object: *object }),
            Outline::Stray { id } => Ok(OwnedIncoming::Stray { id: *id }),
            Outline::Error { id, named, code } => Ok(OwnedIncoming::Error {
                id: *id,
                named: *named,
                code: *code,
                text: Bytes::copy_of(alloc.clone()?, text_at(args, body, 2))?,
            }),
        }
    }
}

/// The first `count` tokens, or all if there are fewer.
fn first(tokens: &[u32], count: usize) -> &[u32]
    ensures { result.now ≡ take count tokens.now }
{
    &tokens[..count.min(tokens.len())]
}
