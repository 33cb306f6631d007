//! What a check finds, and how it is printed.
ghost use Rattle.std.specs.Prelude.{◌≡◌, ◌++◌, OnOk};
ghost use Rattle.wl_check.specs.Verdict.{broken_text, counts_text, left_text};
ghost use Rattle.wl_check.specs.Verdict.{message_text, sign_text, verdict_line};

use std::alloc::{AllocError, Allocator};
use std::io::Write;
use wl_objects::Fault;
use wl_recording::Direction;

/// Whether a recorded session is lawful.
#[derive(Clone, Copy, Debug, PartialEq, Eq)]
pub enum Verdict {
    /// No message breaks a rule.
    Lawful {
        /// How many requests were counted.
        requests: usize,
        /// How many events were counted.
        events: usize,
        /// How many bytes to the server belong to no counted message.
        left_to_server: usize,
        /// How many bytes to the client belong to no counted message.
        left_to_client: usize,
    },
    /// This is the first message that breaks a rule.
    Broken {
        direction: Direction,
        /// The message's number in its direction, from 1.
        index: usize,
        /// Where the message begins in its direction, in bytes from 0.
        offset: usize,
        /// The first rule that it breaks.
        fault: Fault,
    },
}

/// Appends the line of a verdict, and its line feed. Where memory runs out, a part of the line may
/// have been appended.
pub fn write_verdict<A: Allocator>(
    out: &mut Vec<u8, A>,
    verdict: &Verdict,
) -> Result<(), AllocError>
    ensures { OnOk result (out.new.items ≡ out.old.items ++ verdict_line verdict.now) }
{
    match verdict {
        Verdict::Lawful {
            requests,
            events,
            left_to_server,
            left_to_client,
        } => {
            write_counts(out, *requests, *events)?;
            write_left(out, *left_to_server, *left_to_client)
        }
        Verdict::Broken {
            direction,
            index,
            offset,
            fault,
        } => {
            write_message(out, *direction, *index)?;
            write_fault(out, *offset, fault)
        }
    }
}

/// Appends the first part of the line on a lawful session: how many messages were counted.
fn write_counts<A: Allocator>(
    out: &mut Vec<u8, A>,
    requests: usize,
    events: usize,
) -> Result<(), AllocError>
    ensures { OnOk result (out.new.items ≡ out.old.items ++ counts_text requests events) }
{
    write!(out, "lawful: {requests} requests, {events} events, ").map_err(|_| AllocError)
}

/// Appends the second part: how many bytes are left.
fn write_left<A: Allocator>(
    out: &mut Vec<u8, A>,
    left_to_server: usize,
    left_to_client: usize,
) -> Result<(), AllocError>
    ensures { OnOk result (out.new.items ≡ out.old.items
        ++ left_text left_to_server left_to_client) }
{
    writeln!(out, "{left_to_server} and {left_to_client} bytes left").map_err(|_| AllocError)
}

/// Appends the first part of the line on a broken session: which message breaks a rule.
fn write_message<A: Allocator>(
    out: &mut Vec<u8, A>,
    direction: Direction,
    index: usize,
) -> Result<(), AllocError>
    ensures { OnOk result (out.new.items ≡ out.old.items ++ message_text direction index) }
{
    let sign = sign_of(direction);
    write!(out, "broken: {sign} message {index}").map_err(|_| AllocError)
}

/// Appends the second part: where it begins, and the rule.
fn write_fault<A: Allocator>(
    out: &mut Vec<u8, A>,
    offset: usize,
    fault: &Fault,
) -> Result<(), AllocError>
    ensures { OnOk result (out.new.items ≡ out.old.items ++ broken_text offset fault.now) }
{
    writeln!(out, " at byte {offset}: {fault}").map_err(|_| AllocError)
}

/// The sign of a direction.
fn sign_of(direction: Direction) -> &'static str
    ensures { result.now ≡ sign_text direction }
{
    match direction {
        Direction::ToServer => ">",
        Direction::ToClient => "<",
    }
}
