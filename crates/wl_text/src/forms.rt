//! The forms of the lines.
ghost use Rattle.std.specs.Prelude.{◌≡◌, ◌==◌, ◌∷◌, IfOk, option_map, option_copied, position};
ghost use Rattle.std.specs.List.{list_all};
ghost use Rattle.wl_text.specs.Text.{is_text_byte, is_text_name, kind_of};
ghost use Rattle.wl_text.specs.Text.{needs_interface, takes_interface};
ghost use Rattle.wl_text.specs.Text.{bracketed, written_kind_of, at_number, since_of};
ghost use Rattle.wl_text.specs.Text.{ending_of};
ghost use Rattle.wl_text.specs.Text.{tail_of, written_message_of, interface_of};
ghost use Rattle.wl_text.specs.Reading.{words_behind, tail_of_ending};

use crate::lines::first_word;
use crate::number::decimal_number;
use crate::written::{BareKind, WrittenInterface, WrittenKind, WrittenMessage};
use std::alloc::{AllocError, Allocator};
use std::marker::Model;

// Whether a word is a name.
fn is_text_name(name: &[u8]) -> bool
    ensures { result ≡ is_text_name name.now }
{
    !name.is_empty() && are_text_bytes(name)
}

fn are_text_bytes(name: &[u8]) -> bool
    ensures { result ≡ list_all is_text_byte name.now }
{
    name.iter().all(|byte| is_text_byte(*byte))
}

fn is_text_byte(byte: u8) -> bool
    ensures { result ≡ is_text_byte byte }
{
    byte != b' ' && byte != b'(' && byte != b')'
}

// The kind that letters stand for.
fn kind_of(letters: &[u8]) -> Option<BareKind>
    ensures { result ≡ kind_of letters.now }
{
    if letters == b"i".as_slice() {
        Some(BareKind::Int)
    } else if letters == b"u".as_slice() {
        Some(BareKind::Uint)
    } else if letters == b"f".as_slice() {
        Some(BareKind::Fixed)
    } else if letters == b"s".as_slice() {
        Some(BareKind::Str { null: false })
    } else if letters == b"?s".as_slice() {
        Some(BareKind::Str { null: true })
    } else if letters == b"a".as_slice() {
        Some(BareKind::Array)
    } else if letters == b"h".as_slice() {
        Some(BareKind::Fd)
    } else if letters == b"o".as_slice() {
        Some(BareKind::Obj { null: false })
    } else if letters == b"?o".as_slice() {
        Some(BareKind::Obj { null: true })
    } else if letters == b"n".as_slice() {
        Some(BareKind::New)
    } else if letters == b"N".as_slice() {
        Some(BareKind::NewByServer)
    } else {
        None
    }
}

/// Whether an argument of the kind may name an interface: an object, or a new one.
pub fn takes_interface(kind: BareKind) -> bool
    ensures { result ≡ takes_interface kind }
{
    matches!(
        kind,
        BareKind::Obj { .. } | BareKind::New | BareKind::NewByServer
    )
}

/// Whether an argument of the kind must name an interface: an object that the server makes.
pub fn needs_interface(kind: BareKind) -> bool
    ensures { result ≡ needs_interface kind }
{
    kind == BareKind::NewByServer
}

// The argument of this kind, given what follows its letters: nothing, or a name in brackets.
fn bracketed(kind: BareKind, behind: &[u8]) -> Option<WrittenKind<'_>>
    ensures { result ≡ bracketed kind behind.now }
{
    match behind {
        [] if !needs_interface(kind) => Some(WrittenKind { kind, iface: None }),
        [_, name @ .., b')'] if takes_interface(kind) && is_text_name(name) => {
            Some(WrittenKind {
                kind,
                iface: Some(name),
            })
        }
        _ => None,
    }
}

// The argument that a word spells.
fn argument_of(word: &[u8]) -> Option<WrittenKind<'_>>
    ensures { result ≡ written_kind_of word.now }
{
    let open = place_of_bracket(word).unwrap_or(word.len());
    let (letters, behind) = word.split_at(open);
    let kind = kind_of(letters)?;
    bracketed(kind, behind)
}

fn place_of_bracket(word: &[u8]) -> Option<usize>
    ensures { result ≡ position (λ byte. byte == 40) word.now }
{
    word.iter().position(|byte| *byte == b'(')
}

// The part of a line after a message's name.
#[derive(Drop)]
struct Tail<'t, A: Allocator> {
    kinds: Vec<WrittenKind<'t>, A>,
    destroys: bool,
    since: u32,
}

impl<'t, A: Allocator> Model for Tail<'t, A> {
    ghost use Rattle.wl_text.specs.Text as text;

    ghost Value = { text.Tail };

    ghost view = { λ t. record { kinds = t.kinds.items; destroys = t.destroys; since = t.since } };
}

// The number in a word of the form `@number`.
fn at_number(word: &[u8]) -> Option<u32>
    ensures { result ≡ at_number word.now }
{
    if word.is_empty() || word[0] != b'@' {
        return None;
    }
    decimal_number(&word[1..])
}

// The since number, spelled by the last word of a line.
#[tactic(auto, using(crate::proofs::Words::since_alone))]
fn since_of(word: &[u8], behind: Option<&[u8]>) -> Option<u32>
    ensures { result ≡ since_of (word.now ∷ words_behind (option_copied behind.entry)) }
{
    match behind {
        None => at_number(word),
        Some(_) => None,
    }
}

// Whether a message destroys its target, and its since number, from a word that spells no argument
// and the words after it.
fn ending_of(word: &[u8], behind: Option<&[u8]>) -> Option<(bool, u32)>
    ensures { option_map tail_of_ending result
        ≡ ending_of word.now (words_behind (option_copied behind.entry)) }
{
    if word != b"D".as_slice() {
        return Some((false, since_of(word, behind)?));
    }
    let Some(rest) = behind else {
        return Some((true, 1));
    };
    let (last, more) = first_word(rest);
    Some((true, since_of(last, more)?))
}

// The tail that the words after a message's name spell.
fn tail_of<'t, A: Allocator + Clone + Drop>(
    alloc: &A,
    behind: Option<&'t [u8]>,
) -> Result<Option<Tail<'t, A>>, AllocError>
    ensures { IfOk result (λ tail. tail ≡ tail_of (words_behind (option_copied behind.entry))) }
{
    let mut kinds = Vec::new(alloc.clone()?);
    let mut behind = behind;
    'arguments: while let Some(rest) = behind {
        let (word, more) = first_word(rest);
        let Some(kind) = argument_of(word) else {
            return Ok(match ending_of(word, more) {
                Some((destroys, since)) => Some(Tail {
                    kinds,
                    destroys,
                    since,
                }),
                None => None,
            });
        };
        kinds.push(kind)?;
        behind = more;
    }
    Ok(Some(Tail {
        kinds,
        destroys: false,
        since: 1,
    }))
}

// The message in a line, from the words after its side.
pub(crate) fn message_of<'t, A: Allocator + Clone + Drop>(
    alloc: &A,
    line: usize,
    behind: Option<&'t [u8]>,
) -> Result<Option<WrittenMessage<'t, A>>, AllocError>
    ensures { IfOk result (λ message. message
        ≡ written_message_of line (words_behind (option_copied behind.entry))) }
{
    let Some(rest) = behind else {
        return Ok(None);
    };
    let (name, more) = first_word(rest);
    if !is_text_name(name) {
        return Ok(None);
    }
    let Some(tail) = tail_of(alloc, more)? else {
        return Ok(None);
    };
    Ok(Some(WrittenMessage {
        line,
        name,
        since: tail.since,
        kinds: tail.kinds,
        destroys: tail.destroys,
    }))
}

// The interface in a line, from the words after `interface` or `extend`.
#[tactic(auto, using(crate::proofs::Words::version_alone))]
pub(crate) fn interface_of<'t, A: Allocator + Clone + Drop>(
    alloc: &A,
    extends: bool,
    line: usize,
    behind: Option<&'t [u8]>,
) -> Result<Option<WrittenInterface<'t, A>>, AllocError>
    ensures { IfOk result (λ interface. interface
        ≡ interface_of extends line (words_behind (option_copied behind.entry))) }
{
    let Some(rest) = behind else {
        return Ok(None);
    };
    let (name, Some(more)) = first_word(rest) else {
        return Ok(None);
    };
    let (digits, None) = first_word(more) else {
        return Ok(None);
    };
    if !is_text_name(name) {
        return Ok(None);
    }
    let Some(version) = decimal_number(digits) else {
        return Ok(None);
    };
    Ok(Some(WrittenInterface {
        line,
        extends,
        name,
        version,
        requests: Vec::new(alloc.clone()?),
        events: Vec::new(alloc.clone()?),
    }))
}
