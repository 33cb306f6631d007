//! What a text says about each interface: its own, and those of the tables that it extends.
ghost use Rattle.std.specs.Prelude.{◌≡◌, ◌++◌, IfOk, option_map, option_copied, position, bytes_eq};
ghost use Rattle.std.specs.Prelude.{not};
ghost use Rattle.std.specs.List.{list_all};
ghost use Rattle.wl_rules.specs.BrokenLines.{broken};
ghost use Rattle.wl_rules.specs.Extended.{with_extension, extend_first, first_named, one_more};
ghost use Rattle.wl_rules.specs.Extended.{gathered_from, greater};
ghost use Rattle.wl_rules.specs.Extending.{is_fixed_name, version_rule, extend_rule};
ghost use Rattle.wl_rules.specs.Extending.{extension_broken, extensions_broken};

use crate::rules::{BrokenLine, broken_at, earlier};
use std::alloc::{AllocError, Allocator};
use std::marker::Model;
use wl_text::{WrittenInterface, WrittenMessage};

/// What lines of a text say.
#[derive(Drop)]
pub struct Gathered<'n, A: Allocator> {
    /// What they add to each interface of the tables, in order of the tables.
    pub added: Vec<WrittenInterface<'n, A>, A>,
    /// The interfaces that they declare.
    pub declared: Vec<WrittenInterface<'n, A>, A>,
}

impl<'n, A: Allocator> Model for Gathered<'n, A> {
    ghost use Rattle.wl_rules.specs.Extended as extended;

    ghost Value = { extended.Gathered };

    ghost view = { λ g. record { added = g.added.items; declared = g.declared.items } };
}

// Whether the name is that of one of the four fixed interfaces.
fn is_fixed_name(name: &[u8]) -> bool
    ensures { result ≡ is_fixed_name name.now }
{
    name == b"wl_display".as_slice()
        || name == b"wl_registry".as_slice()
        || name == b"wl_callback".as_slice()
        || name == b"wl_fixes".as_slice()
}

fn is_named<A: Allocator>(interface: &WrittenInterface<'_, A>, name: &[u8]) -> bool
    ensures { result ≡ bytes_eq interface.now.name name.now }
{
    interface.name == name
}

// The index of the first interface with this name.
fn place_named<A: Allocator>(written: &[WrittenInterface<'_, A>], name: &[u8]) -> Option<usize>
    ensures { result ≡ position (λ i. bytes_eq i.name name.now) written.now }
{
    written
        .iter()
        .position(|interface| is_named(interface, name))
}

// The first interface with this name.
fn first_named<'w, 'n, A: Allocator>(
    written: &'w [WrittenInterface<'n, A>],
    name: &[u8],
) -> Option<&'w WrittenInterface<'n, A>>
    ensures { option_copied result ≡ first_named name.now written.now }
{
    written.iter().find(|interface| is_named(*interface, name))
}

// The lowest rule that an extension of this interface to this version breaks on its own.
fn version_rule<'n, A: Allocator>(
    version: u32,
    there: Option<&WrittenInterface<'n, A>>,
) -> Option<u8>
    ensures { result ≡ version_rule version (option_copied there.entry) }
{
    match there {
        Some(there) if version < there.version => Some(8),
        Some(_) => None,
        None => Some(9),
    }
}

// The lowest rule that an extension's line breaks, after lines that say this.
#[tactic(auto, using(crate::proofs::Extensions::named_in_front, crate::proofs::Extensions::named_behind))]
fn extend_rule<'n, A: Allocator>(
    gathered: &Gathered<'n, A>,
    next: &WrittenInterface<'n, A>,
) -> Option<u8>
    ensures { result ≡ extend_rule gathered.now next.now }
{
    if is_fixed_name(next.name) {
        return Some(2);
    }
    let added = gathered.added.as_slice();
    let declared = gathered.declared.as_slice();
    match first_named(added, next.name) {
        Some(there) => version_rule(next.version, Some(there)),
        None => version_rule(next.version, first_named(declared, next.name)),
    }
}

// The line of an extension, if it breaks a rule on its own.
fn extension_broken<'n, A: Allocator>(
    gathered: &Gathered<'n, A>,
    next: &WrittenInterface<'n, A>,
) -> Option<BrokenLine>
    ensures { option_map broken result ≡ extension_broken gathered.now next.now }
{
    if !next.extends {
        return None;
    }
    broken_at(next.line, extend_rule(gathered, next))
}

// The messages, with more appended.
fn with_messages<'n, A: Allocator>(
    messages: Vec<WrittenMessage<'n, A>, A>,
    more: Vec<WrittenMessage<'n, A>, A>,
) -> Result<Vec<WrittenMessage<'n, A>, A>, AllocError>
    ensures { IfOk result (λ all. all.items ≡ messages.entry.items ++ more.entry.items) }
{
    let mut all = messages;
    for message in more {
        all.push(message)?;
    }
    Ok(all)
}

// The greater of two versions.
fn greater(version: u32, other: u32) -> u32
    ensures { result ≡ greater version other }
{
    if version < other { other } else { version }
}

// The interface after an extension.
fn with_extension<'n, A: Allocator>(
    interface: WrittenInterface<'n, A>,
    more: WrittenInterface<'n, A>,
) -> Result<WrittenInterface<'n, A>, AllocError>
    ensures { IfOk result (λ extended. extended ≡ with_extension interface.entry more.entry) }
{
    Ok(WrittenInterface {
        line: interface.line,
        extends: interface.extends,
        name: interface.name,
        version: greater(interface.version, more.version),
        requests: with_messages(interface.requests, more.requests)?,
        events: with_messages(interface.events, more.events)?,
    })
}

// The interfaces, with the first of this name extended.
fn extend_first<'n, A: Allocator>(
    written: Vec<WrittenInterface<'n, A>, A>,
    more: WrittenInterface<'n, A>,
) -> Result<Vec<WrittenInterface<'n, A>, A>, AllocError>
    ensures { IfOk result (λ all. all.items ≡ extend_first more.entry written.entry.items) }
{
    let mut all = written;
    match place_named(all.as_slice(), more.name) {
        Some(place) => {
            let interface = all.remove(place);
            let extended = with_extension(interface, more)?;
            all.insert(place, extended)?;
            Ok(all)
        }
        None => Ok(all),
    }
}

// What the lines say together with one more declaration or extension.
fn one_more<'n, A: Allocator>(
    gathered: Gathered<'n, A>,
    next: WrittenInterface<'n, A>,
) -> Result<Gathered<'n, A>, AllocError>
    ensures { IfOk result (λ g. g ≡ one_more gathered.entry next.entry) }
{
    let Gathered { added, declared } = gathered;
    if !next.extends {
        let mut declared = declared;
        declared.push(next)?;
        return Ok(Gathered { added, declared });
    }
    match first_named(added.as_slice(), next.name) {
        Some(_) => Ok(Gathered {
            added: extend_first(added, next)?,
            declared,
        }),
        None => Ok(Gathered {
            added,
            declared: extend_first(declared, next)?,
        }),
    }
}

/// Whether none of these is an extension.
pub fn none_extends<A: Allocator>(written: &[WrittenInterface<'_, A>]) -> bool
    ensures { result ≡ list_all (λ i. not i.extends) written.now }
{
    written.iter().all(|interface| !interface.extends)
}

/// What the lines say together with further declarations and extensions, one after another; and the
/// first extension that breaks a rule on its own.
pub fn gather<'n, A: Allocator>(
    gathered: Gathered<'n, A>,
    written: Vec<WrittenInterface<'n, A>, A>,
) -> Result<(Gathered<'n, A>, Option<BrokenLine>), AllocError>
    ensures gathers { IfOk result (λ all. all.0
        ≡ gathered_from gathered.entry written.entry.items) }
    ensures first { IfOk result (λ all. option_map broken all.1
        ≡ extensions_broken gathered.entry written.entry.items) }
{
    let mut all = gathered;
    let mut first = None;
    for next in written {
        first = earlier(first, extension_broken(&all, &next));
        all = one_more(all, next)?;
    }
    Ok((all, first))
}
