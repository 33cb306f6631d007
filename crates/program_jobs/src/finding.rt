//! The verdict of `waywire-inspect` in print.
ghost use Rattle.std.specs.Prelude.{◌≡◌, ◌≤◌, ◌++◌, OnOk, option_map};
ghost use Rattle.program_jobs.specs.Hint.{seen_bound};
ghost use Rattle.program_jobs.specs.Finding.{bytes_left_text, ended_counts_text, ended_text};
ghost use Rattle.program_jobs.specs.Finding.{events_text, finding_line, more_events_text};
ghost use Rattle.program_jobs.specs.Finding.{requests_text};
ghost use Rattle.program_jobs.specs.Finding.{finding_status, followed_text, is_newer, judged_as};
ghost use Rattle.program_jobs.specs.Finding.{begin_text, lacking_for, lacking_of, rest_text};
ghost use Rattle.program_jobs.specs.Finding.{seen_lacking};
ghost use Rattle.program_jobs.specs.Finding.{unjudged_line, unjudged_text, until_error_text};

use crate::hint::{Bound, bound_at, known_version, write_lack};
use crate::inspecting::Noted;
use crate::verdict::status_of;
use program_arguments::status;
use std::alloc::{AllocError, Allocator};
use std::io::Write;
use wl_check::{Verdict, write_verdict};
use wl_objects::Fault;
use wl_recording::Direction;
use wl_sigs::Tables;

/// A bind that only the tables forbid.
#[derive(Clone, Copy)]
pub(crate) struct Lacking<'a> {
    /// Its number among the requests, from 1.
    index: usize,
    bound: Bound<'a>,
    /// The version that the tables have of its interface, if they have it.
    known: Option<u32>,
}

/// The message that breaks a rule, if only the tables forbid it.
pub(crate) fn lacking_of<'a>(
    tables: &Tables,
    requests: &'a [u8],
    is_announced: bool,
    verdict: &Verdict,
) -> Option<Lacking<'a>>
    ensures { option_map seen_lacking result
        ≡ lacking_of tables.now requests.now is_announced verdict.now }
{
    match verdict {
        Verdict::Broken {
            direction: Direction::ToServer,
            index,
            offset,
            fault: Fault::BadBind,
        } => lacking_for(tables, *index, is_announced, bound_at(requests, *offset)),
        _ => None,
    }
}

fn lacking_for<'a>(
    tables: &Tables,
    index: usize,
    is_announced: bool,
    bound: Option<Bound<'a>>,
) -> Option<Lacking<'a>>
    ensures { option_map seen_lacking result
        ≡ lacking_for tables.now index is_announced (option_map seen_bound bound.entry) }
{
    let bound = bound?;
    let known = known_version(tables, bound.interface);
    if !is_announced {
        return None;
    }
    if !is_newer(known, bound.version) {
        return None;
    }
    Some(Lacking {
        index,
        bound,
        known,
    })
}

/// Whether a version is above that of the tables, if they have one.
fn is_newer(known: Option<u32>, version: u32) -> bool
    ensures { result ≡ is_newer known version }
{
    match known {
        None => true,
        Some(known) => known < version,
    }
}

/// Appends the line of the verdict.
pub(crate) fn write_finding<A: Allocator>(
    out: &mut Vec<u8, A>,
    lacking: &Option<Lacking<'_>>,
    verdict: &Verdict,
    noted: &Noted,
) -> Result<(), AllocError>
    ensures { OnOk result (out.new.items ≡ out.old.items
        ++ finding_line (option_map seen_lacking lacking.now) verdict.now noted.now) }
{
    match lacking {
        Some(lacking) => write_unjudged(out, lacking, noted),
        None => write_judged(out, noted.has_error, verdict),
    }
}

/// Appends the line of a session that was not judged to its end.
fn write_unjudged<A: Allocator>(
    out: &mut Vec<u8, A>,
    lacking: &Lacking<'_>,
    noted: &Noted,
) -> Result<(), AllocError>
    ensures { OnOk result (out.new.items ≡ out.old.items
        ++ unjudged_line (seen_lacking lacking.now) noted.now) }
{
    write_begin(out, lacking)?;
    write_rest(out, noted)
}

/// Appends from where on it was not judged, and why.
fn write_begin<A: Allocator>(out: &mut Vec<u8, A>, lacking: &Lacking<'_>) -> Result<(), AllocError>
    ensures { OnOk result (out.new.items ≡ out.old.items
        ++ begin_text (seen_lacking lacking.now)) }
{
    write_from(out, lacking.index)?;
    write_lack(out, &lacking.bound, lacking.known)
}

/// Appends what else was noted.
fn write_rest<A: Allocator>(out: &mut Vec<u8, A>, noted: &Noted) -> Result<(), AllocError>
    ensures { OnOk result (out.new.items ≡ out.old.items ++ rest_text noted.now) }
{
    write_followed(out, noted.requests, noted.events)?;
    write_end(out, noted.has_error)
}

fn write_from<A: Allocator>(out: &mut Vec<u8, A>, index: usize) -> Result<(), AllocError>
    ensures { OnOk result (out.new.items ≡ out.old.items ++ unjudged_text index) }
{
    write!(out, "not judged from request {index} on: ").map_err(|_| AllocError)
}

fn write_followed<A: Allocator>(
    out: &mut Vec<u8, A>,
    requests: usize,
    events: usize,
) -> Result<(), AllocError>
    ensures { OnOk result (out.new.items ≡ out.old.items ++ followed_text requests events) }
{
    write_requests(out, requests)?;
    write_events(out, events)
}

fn write_requests<A: Allocator>(out: &mut Vec<u8, A>, requests: usize) -> Result<(), AllocError>
    ensures { OnOk result (out.new.items ≡ out.old.items ++ requests_text requests) }
{
    write!(out, "; lawful until then; {requests} requests, ").map_err(|_| AllocError)
}

fn write_events<A: Allocator>(out: &mut Vec<u8, A>, events: usize) -> Result<(), AllocError>
    ensures { OnOk result (out.new.items ≡ out.old.items ++ events_text events) }
{
    write!(out, "{events} events").map_err(|_| AllocError)
}

fn write_end<A: Allocator>(out: &mut Vec<u8, A>, has_error: bool) -> Result<(), AllocError>
    ensures { OnOk result (out.new.items ≡ out.old.items ++ ended_text has_error) }
{
    if has_error {
        out.extend_from_slice(b"; ended by wl_display.error\n")
    } else {
        out.extend_from_slice(b"\n")
    }
}

/// Appends the line of a session that was judged to its end.
fn write_judged<A: Allocator>(
    out: &mut Vec<u8, A>,
    has_error: bool,
    verdict: &Verdict,
) -> Result<(), AllocError>
    ensures { OnOk result (out.new.items ≡ out.old.items ++ judged_as has_error verdict.now) }
{
    match verdict {
        Verdict::Lawful {
            requests,
            events,
            left_to_server,
            left_to_client,
        } if has_error => {
            write_ended_counts(out, *requests, *events)?;
            write_bytes_left(out, *left_to_server, *left_to_client)
        }
        _ => write_verdict(out, verdict),
    }
}

fn write_ended_counts<A: Allocator>(
    out: &mut Vec<u8, A>,
    requests: usize,
    events: usize,
) -> Result<(), AllocError>
    ensures { OnOk result (out.new.items ≡ out.old.items ++ ended_counts_text requests events) }
{
    write_until_error(out, requests)?;
    write_more_events(out, events)
}

fn write_until_error<A: Allocator>(out: &mut Vec<u8, A>, requests: usize) -> Result<(), AllocError>
    ensures { OnOk result (out.new.items ≡ out.old.items ++ until_error_text requests) }
{
    write!(out, "lawful up to wl_display.error: {requests} requests, ").map_err(|_| AllocError)
}

fn write_more_events<A: Allocator>(out: &mut Vec<u8, A>, events: usize) -> Result<(), AllocError>
    ensures { OnOk result (out.new.items ≡ out.old.items ++ more_events_text events) }
{
    write!(out, "{events} events, ").map_err(|_| AllocError)
}

fn write_bytes_left<A: Allocator>(
    out: &mut Vec<u8, A>,
    to_server: usize,
    to_client: usize,
) -> Result<(), AllocError>
    ensures { OnOk result (out.new.items ≡ out.old.items
        ++ bytes_left_text to_server to_client) }
{
    writeln!(out, "{to_server} and {to_client} bytes left").map_err(|_| AllocError)
}

/// The exit status: 1 for a session that is broken or that a wl_display.error has ended, else 0.
pub(crate) fn status_by(lacking: &Option<Lacking<'_>>, verdict: &Verdict, noted: &Noted) -> u8
    ensures status { result ≡ finding_status (option_map seen_lacking lacking.now) verdict.now
        noted.now }
    ensures known { result ≤ 1 }
{
    if noted.has_error {
        return status::BROKEN_SESSION;
    }
    match lacking {
        Some(_) => status::SUCCESS,
        None => status_of(verdict),
    }
}
