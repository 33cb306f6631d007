//! The values of one message's arguments, one after another.
ghost use Rattle.std.specs.Prelude.{◌≡◌, ◌∷◌, [], MatchOption, option_map, slice_get};
ghost use Rattle.wl_wire.specs.Argument.{lent};
ghost use Rattle.wl_objects.specs.Messages.{id_at};
ghost use Rattle.wl_objects.specs.Parsed.{spelled_in};

use crate::parsed::{ParsedArg, value_of};
use std::marker::Model;
use wl_wire::ValueRef;

/// The remaining values of a message's arguments, in order. They were parsed before; their strings
/// and arrays lie in the message's body.
#[derive(Debug, Drop)]
pub struct Values<'a> {
    left: &'a [ParsedArg],
    body: &'a [u8],
}

impl<'a> Model for Values<'a> {
    ghost use Rattle.std.specs.Prelude.{List};
    ghost use Rattle.wl_wire.specs.Argument.{Argument};
    ghost use Rattle.wl_objects.specs.Parsed.{spelled_in};

    ghost Value = { List Argument };

    ghost view = { λ v. spelled_in v.body.now v.left.now };
}

impl<'a> Values<'a> {
    /// The values of the arguments parsed from this body.
    pub(crate) fn new(parsed: &'a [ParsedArg], body: &'a [u8]) -> Values<'a>
        ensures { result ≡ spelled_in body.now parsed.now }
    {
        Values { left: parsed, body }
    }

    /// Takes out the next value.
    pub fn next(&mut self) -> Option<ValueRef<'a>>
        ensures { MatchOption result ((self.old ≡ []) × (self.new ≡ []))
            (λ value. self.old ≡ lent value ∷ self.new) }
    {
        let (parsed, left) = self.left.split_first()?;
        self.left = left;
        Some(value_of(self.body, *parsed))
    }

    /// The value at an index, from 0.
    pub(crate) fn at(&self, place: usize) -> Option<ValueRef<'a>>
        ensures { option_map lent result ≡ slice_get self.now place }
    {
        let parsed = self.left.get(place)?;
        Some(value_of(self.body, *parsed))
    }

    /// The id of the object that the argument at an index, from 0, names; 0 if it names none.
    pub fn id_at(&self, place: usize) -> u32
        ensures { result ≡ id_at self.now place }
    {
        match self.left.get(place) {
            Some(ParsedArg::NoObject { id } | ParsedArg::Object { id, .. }) => *id,
            _ => 0,
        }
    }

    /// The same values, to be gone through again.
    pub fn clone(&self) -> Values<'a>
        ensures { result ≡ self.now }
    {
        Values {
            left: self.left,
            body: self.body,
        }
    }
}
