//! Signed numbers in units of 1/256.
ghost use Rattle.std.specs.Prelude.{◌≡◌, ◌↔◌, ◌*ℤ◌, pos, IsSome, IfSome};
ghost use Rattle.wl_wire.specs.Argument.{units};
ghost use Rattle.wl_wire.specs.Units.{HasFixed, IsFloor};

use std::fmt;

/// A signed fixed-point number: 24 bits including the sign before the point, 8 bits after it.
/// (Section "Wire Format", fixed.)
#[derive(Clone, Copy, Debug, Default, PartialEq, Eq, PartialOrd, Ord, Hash)]
pub struct Fixed {
    /// The number in 256ths.
    parts: i32,
}

impl Fixed {
    /// The number with this many 256ths.
    pub fn from_raw(raw: i32) -> Fixed
        ensures { units result ≡ raw }
    {
        Fixed { parts: raw }
    }

    /// The number in 256ths.
    pub fn raw(self) -> i32
        ensures { result ≡ units self }
    {
        self.parts
    }

    /// A whole number from -8,388,608 to 8,388,607; `None` for any other.
    pub fn from_int(whole: i32) -> Option<Fixed>
        ensures range { IsSome result ↔ HasFixed whole }
        ensures value { IfSome result (λ f. units f ≡ whole *ℤ pos 256) }
    {
        let raw = whole.checked_mul(256)?;
        Some(Fixed::from_raw(raw))
    }

    /// The greatest whole number at or below this one: -1 for -1/256.
    pub fn to_int(self) -> i32
        ensures { IsFloor result (units self) }
    {
        self.raw().div_euclid(256)
    }
}

/// Prints eight decimals, which show each 256th exactly.
impl fmt::Display for Fixed {
    ghost use Rattle.std.specs.Prelude.{Some};
    ghost use Rattle.wl_wire.specs.Argument.{units};
    ghost use Rattle.wl_wire.specs.Units.{fixed_text};

    ghost output = { λ z. Some (fixed_text (units z)) };

    fn fmt<W: fmt::Write>(&self, f: &mut fmt::Formatter<W>) -> fmt::Result {
        let raw = self.raw();
        let sign = if raw < 0 { "-" } else { "" };
        let size = raw.unsigned_abs();
        let (whole, parts) = (size / 256, size % 256 * 390_625);
        write!(f, "{sign}{whole}.{parts:08}")
    }
}
