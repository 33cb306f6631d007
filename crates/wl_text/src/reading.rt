//! Reading tables as text, line by line.
ghost use Rattle.std.specs.Prelude.{◌≡◌, ℕ, ◌⊎◌, [], Some, None, Ok, Err, IfOk, IfErr};
ghost use Rattle.std.specs.Prelude.{if◌then◌else◌};
ghost use Rattle.std.specs.Str.Lines.{lines};
ghost use Rattle.wl_text.specs.Lines.{words};
ghost use Rattle.wl_text.specs.declared.fault.TableFault.TheVariants.{BadLine, Memory};
ghost use Rattle.wl_text.specs.Text.{with_written_message, message_added, words_added};
ghost use Rattle.wl_text.specs.Text.{interfaces_from};

use crate::fault::TableFault;
use crate::forms::{interface_of, message_of};
use crate::lines::{first_line, first_word, is_skipped};
use crate::written::{WrittenInterface, WrittenMessage};
use std::alloc::{AllocError, Allocator};

/// The interfaces that a text lists, or its first bad line.
pub fn read_interfaces<'t, A: Allocator + Clone + Drop>(
    alloc: &A,
    text: &'t [u8],
) -> Result<Vec<WrittenInterface<'t, A>, A>, TableFault>
    ensures ok { IfOk result (λ written. interfaces_from 1 (lines text.now) [] ≡ Ok written.items) }
    ensures bad { IfErr result (λ e. (e ≡ Memory)
        ⊎ ((n : ℕ) × (e ≡ BadLine n) × (interfaces_from 1 (lines text.now) [] ≡ Err n))) }
{
    let mut interfaces = Vec::new(alloc.clone()?);
    let mut rest = text;
    let mut number = 0;
    'lines: while !rest.is_empty() {
        let (line, after) = first_line(rest);
        number += 1;
        if !is_skipped(line) && !add_line(alloc, &mut interfaces, number, line)? {
            return Err(TableFault::BadLine { line: number });
        }
        rest = after;
    }
    Ok(interfaces)
}

// Adds what a line declares. False if the line has no form, or is a message before any interface.
fn add_line<'t, A: Allocator + Clone + Drop>(
    alloc: &A,
    interfaces: &mut Vec<WrittenInterface<'t, A>, A>,
    number: usize,
    line: &'t [u8],
) -> Result<bool, AllocError>
    ensures { IfOk result (λ added. words_added number (words line.now) interfaces.old.items
        ≡ (if added then Some interfaces.new.items else None)) }
{
    let (word, behind) = first_word(line);
    let extends = word == b"extend".as_slice();
    if word == b"interface".as_slice() || extends {
        let Some(interface) = interface_of(alloc, extends, number, behind)? else {
            return Ok(false);
        };
        interfaces.push(interface)?;
        return Ok(true);
    }
    let is_request = word == b"request".as_slice();
    if !is_request && word != b"event".as_slice() {
        return Ok(false);
    }
    let Some(message) = message_of(alloc, number, behind)? else {
        return Ok(false);
    };
    add_message(interfaces, is_request, message)
}

// Adds a request or an event to the last interface. False if there is no interface.
#[tactic(auto, using(crate::proofs::Words::added_last))]
fn add_message<'t, A: Allocator + Clone>(
    interfaces: &mut Vec<WrittenInterface<'t, A>, A>,
    is_request: bool,
    message: WrittenMessage<'t, A>,
) -> Result<bool, AllocError>
    ensures { IfOk result (λ added. message_added is_request message.entry interfaces.old.items
        ≡ (if added then Some interfaces.new.items else None)) }
{
    let Some(last) = interfaces.pop() else {
        return Ok(false);
    };
    let last = with_message(last, is_request, message)?;
    interfaces.push_reserved(last);
    Ok(true)
}

// The interface with this message appended to those of its side.
fn with_message<'t, A: Allocator + Clone>(
    interface: WrittenInterface<'t, A>,
    is_request: bool,
    message: WrittenMessage<'t, A>,
) -> Result<WrittenInterface<'t, A>, AllocError>
    ensures { IfOk result (λ more. more ≡ with_written_message is_request message.entry
        interface.entry) }
{
    let mut interface = interface;
    if is_request {
        interface.requests.push(message)?;
    } else {
        interface.events.push(message)?;
    }
    Ok(interface)
}
