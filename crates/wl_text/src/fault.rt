//! Why a text gives no tables.
ghost use Rattle.std.specs.Prelude.{◌≡◌};
ghost use Rattle.wl_text.specs.declared.fault.TableFault.TheVariants.{Memory};

use std::alloc::{AllocError, AllocFailed};
use std::error::Error;
use std::fmt::{self, Display, Formatter};

/// Why a text gives no tables. Lines are counted from 1, including skipped ones.
#[derive(Clone, Copy, Debug, PartialEq, Eq)]
pub enum TableFault {
    /// TB1: the first line that has none of the forms, or that is a message before any interface.
    BadLine { line: usize },
    /// TB2: every line has a form. `line` is the first line that breaks a rule of valid tables, and
    /// `rule`, 1 to 9 or 11, is the lowest rule that it breaks.
    BadTable { line: usize, rule: u8 },
    /// TB3: out of memory.
    Memory,
}

impl Display for TableFault {
    ghost use Rattle.std.specs.Prelude.{Some};
    ghost use Rattle.wl_text.specs.Errors.{table_fault_text};

    ghost output = { λ fault. Some (table_fault_text fault) };

    fn fmt<W: fmt::Write>(&self, f: &mut Formatter<W>) -> fmt::Result {
        match self {
            TableFault::BadLine { line } => write!(f, "line {line}: bad line"),
            TableFault::BadTable { line, rule } => write!(f, "line {line}: breaks V{rule}"),
            TableFault::Memory => f.write_str("out of memory"),
        }
    }
}

impl Error for TableFault {}

impl From<AllocError> for TableFault {
    ghost from_gives = { λ _ e. e ≡ Memory };

    fn from(_e: AllocError) -> TableFault {
        TableFault::Memory
    }
}

impl<T: Drop> From<AllocFailed<T>> for TableFault {
    ghost from_gives = { λ _ e. e ≡ Memory };

    fn from(_e: AllocFailed<T>) -> TableFault {
        TableFault::Memory
    }
}
