//! What a text declares.
ghost use Rattle.std.specs.Prelude.{◌≡◌};
ghost use Rattle.std.specs.List.{list_any};

use std::alloc::{Allocator, Global};
use std::marker::Model;

/// The kind of an argument without its interface, as the letters give it.
#[derive(Clone, Copy, Debug, PartialEq, Eq)]
pub enum BareKind {
    /// `i`
    Int,
    /// `u`
    Uint,
    /// `f`
    Fixed,
    /// `s`, or `?s` if null is allowed.
    Str { null: bool },
    /// `o`, or `?o` if null is allowed.
    Obj { null: bool },
    /// `n`: a new object that the client makes.
    New,
    /// `N`: a new object that the server makes.
    NewByServer,
    /// `a`
    Array,
    /// `h`
    Fd,
}

/// The kind of an argument as a text writes it: the kind without its interface, and the interface's
/// name if the text gives one.
#[derive(Drop)]
pub struct WrittenKind<'t> {
    /// The kind without its interface.
    pub kind: BareKind,
    /// The name in brackets.
    pub iface: Option<&'t [u8]>,
}

impl<'t> Model for WrittenKind<'t> {
    ghost use Rattle.std.specs.Prelude.{option_copied};
    ghost use Rattle.wl_text.specs.Text as text;

    ghost Value = { text.WrittenKind };

    ghost view = { λ k. record { kind = k.kind; iface = option_copied k.iface } };
}

/// A message as a text writes it.
#[derive(Drop)]
pub struct WrittenMessage<'t, A: Allocator = Global> {
    /// The number of its line, from 1.
    pub line: usize,
    /// Its name.
    pub name: &'t [u8],
    /// The version that introduced it; 1 if the line gives none.
    pub since: u32,
    /// The kinds of its arguments, in order.
    pub kinds: Vec<WrittenKind<'t>, A>,
    /// Whether it destroys its target.
    pub destroys: bool,
}

impl<'t, A: Allocator> Model for WrittenMessage<'t, A> {
    ghost use Rattle.wl_text.specs.Text as text;

    ghost Value = { text.WrittenMessage };

    ghost view = { λ m. record {
      line = m.line;
      name = m.name.now;
      since = m.since;
      kinds = m.kinds.items;
      destroys = m.destroys;
    } };
}

/// An interface, or an extension of one, as a text writes it, with the messages of the lines below
/// it.
#[derive(Drop)]
pub struct WrittenInterface<'t, A: Allocator = Global> {
    /// The number of its line, from 1.
    pub line: usize,
    /// Whether it extends an interface: its line begins with `extend`.
    pub extends: bool,
    /// Its name.
    pub name: &'t [u8],
    /// Its version.
    pub version: u32,
    /// Its requests, in order.
    pub requests: Vec<WrittenMessage<'t, A>, A>,
    /// Its events, in order.
    pub events: Vec<WrittenMessage<'t, A>, A>,
}

impl<'t, A: Allocator> Model for WrittenInterface<'t, A> {
    ghost use Rattle.wl_text.specs.Text as text;

    ghost Value = { text.WrittenInterface };

    ghost view = { λ i. record {
      line = i.line;
      extends = i.extends;
      name = i.name.now;
      version = i.version;
      requests = i.requests.items;
      events = i.events.items;
    } };
}

impl<'t, A: Allocator> WrittenInterface<'t, A> {
    /// Whether one of its events destroys its target.
    pub fn has_destroying_event(&self) -> bool
        ensures { result ≡ list_any (λ m. m.destroys) self.now.events }
    {
        self.events.iter().any(|event| event.destroys)
    }
}
