//! The report of a request without its arguments, which a report borrows or copies.
ghost use Rattle.std.specs.Prelude.{◌≡◌, ◌≢◌, [], IfOk, OnErr};
ghost use Rattle.wl_server.specs.Seen.{lent_report, report_of};
ghost use Rattle.wl_server.specs.Steps.{outlined};

use crate::report::{OwnedRequest, Request};
use std::alloc::{AllocError, Allocator};
use wl_connection::Endpoint;
use wl_objects::{Args, Object, ParsedArgs, Table};

/// The report of a request. Its arguments and tokens are added when the report is borrowed or
/// copied.
#[derive(Clone, Copy, Debug)]
pub(crate) struct Outline {
    pub(crate) target: Object,
    pub(crate) opcode: u16,
    /// The birth of the object that the request opens.
    pub(crate) birth: u64,
}

impl Outline {
    /// The report of the request that was applied last, borrowing from the end.
    pub(crate) fn lend<'a, T: Table>(&self, end: &'a Endpoint<'_, T>) -> Request<'a>
        ensures { lent_report result ≡ outlined end.now.core.inbox.last end.now.args
            end.now.core.inbox.last_tokens self.now }
    {
        let Endpoint { core, args } = end;
        let (body, tokens) = core.inbox.last_with_tokens();
        Request {
            target: self.target,
            opcode: self.opcode,
            args: Args::new(args, body, tokens, self.birth),
        }
    }

    /// The report of a request with these arguments, this body and these tokens, owned. Memory is
    /// needed only if there are arguments.
    pub(crate) fn to_owned<A: Allocator + Clone + Drop>(
        &self,
        alloc: &A,
        args: &ParsedArgs,
        body: &[u8],
        tokens: &[u32],
    ) -> Result<OwnedRequest<A>, AllocError>
        ensures ok { IfOk result
            (λ report. report_of report ≡ outlined body.now args.now tokens.now self.now) }
        ensures err { OnErr result (args.now ≢ []) }
    {
        match Args::new(args, body, tokens, self.birth).to_owned(alloc) {
            Ok(args) => Ok(OwnedRequest {
                target: self.target,
                opcode: self.opcode,
                args,
            }),
            Err(error) => Err(error),
        }
    }
}
