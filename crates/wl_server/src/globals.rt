//! The globals that a server advertises.
ghost use Rattle.std.specs.Prelude.{◌≡◌, ◌≤◌, OnOk, OnErr, true, length};
ghost use Rattle.wl_connection.specs.Outcomes.{AnswersOrMemory, refusal_in};
ghost use Rattle.wl_server.specs.State.{global_of, most_globals};
ghost use Rattle.wl_server.specs.Calls.{add_answer, after_withdraw, can_be_global};
ghost use Rattle.wl_server.specs.Calls.{with_allowed, with_global, withdraw_refusal};
ghost use Rattle.wl_server.specs.Words.{AreWithdrawn};

use crate::name_set::{MOST_GLOBALS, NameSet};
use crate::server::Server;
use std::error::Error;
use std::fmt::{self, Display, Formatter};
use std::marker::Model;
use wl_objects::{DISPLAY, REGISTRY, Table};
use wl_sigs::Tables;
use wl_wire::Iface;

/// A global. Its name is its index plus 1.
#[derive(Clone, Copy, Debug)]
pub(crate) struct Advertised {
    pub(crate) iface: Iface,
    pub(crate) version: u32,
    /// False once it is withdrawn.
    pub(crate) present: bool,
}

impl Model for Advertised {
    ghost use Rattle.wl_server.specs.State.{Global};

    ghost Value = { Global };

    ghost view = { λ g. record { iface = g.iface; version = g.version; present = g.present } };

    ghost inverse = { λ g. record { iface = g.iface; version = g.version; present = g.present } };
}

/// Why a global is not added or not withdrawn. The causes are tested in this order.
#[derive(Clone, Copy, Debug, PartialEq, Eq)]
pub enum GlobalError {
    /// G1: the server has failed.
    Failed,
    /// G2: the interface is wl_display, wl_registry or not in the tables, or the version is 0 or
    /// above the one in the tables.
    BadGlobal,
    /// G3: as many globals were added in the server's lifetime as it may add: 1,024, or the number
    /// of [`Server::allow_globals`].
    TooMany,
    /// G4: there is no memory for the global.
    Memory,
    /// G5: no global was added under this name, or it is withdrawn.
    NoSuchGlobal,
}

impl Display for GlobalError {
    ghost use Rattle.std.specs.Prelude.{Some};
    ghost use Rattle.wl_server.specs.Errors.{global_error_text};

    ghost output = { λ error. Some (global_error_text error) };

    fn fmt<W: fmt::Write>(&self, f: &mut Formatter<W>) -> fmt::Result {
        f.write_str(match self {
            GlobalError::Failed => "this end has failed",
            GlobalError::BadGlobal => "no such interface to advertise at this version",
            GlobalError::TooMany => "too many globals",
            GlobalError::Memory => "out of memory",
            GlobalError::NoSuchGlobal => "no such global",
        })
    }
}

impl Error for GlobalError {}

impl<'t, T: Table> Server<'t, T> {
    /// Adds a global, and returns its name. The refusals are tested in this order: G1, G2, G3, G4.
    /// `announce` writes the global to the registries.
    pub fn add_global(&mut self, iface: Iface, version: u32) -> Result<u32, GlobalError>
        ensures answer { AnswersOrMemory GlobalError.Memory true
            (add_answer self.old iface version) result }
        ensures ok { OnOk result (self.new ≡ with_global self.old iface version) }
        ensures err { OnErr result (self.new ≡ self.old) }
    {
        if self.end.core.failed {
            return Err(GlobalError::Failed);
        }
        if !can_be_global(self.end.core.tables, iface, version) {
            return Err(GlobalError::BadGlobal);
        }
        let count = self.role.globals.len();
        let most = self.role.allowed.min(MOST_GLOBALS);
        if count >= most {
            return Err(GlobalError::TooMany);
        }
        let global = Advertised {
            iface,
            version,
            present: true,
        };
        match self.role.globals.push(global) {
            Ok(()) => {
                self.role.registries.unsettle();
                Ok(count as u32 + 1)
            }
            Err(_) => Err(GlobalError::Memory),
        }
    }

    /// Sets how many globals the server may add in its lifetime: 1,024 unless this is called.
    /// However large the number is, the server adds no more than [`MOST_GLOBALS`]. A client
    /// remembers 1,024 at a time.
    pub fn allow_globals(&mut self, number: usize)
        ensures { self.new ≡ with_allowed self.old number }
    {
        self.role.allowed = number;
    }

    /// Withdraws a global. G1 is tested before G5. The global can still be bound, and `announce`
    /// sends global_remove to the registries to which it was announced. Allocates nothing.
    pub fn withdraw(&mut self, name: u32) -> Result<(), GlobalError>
        ensures answer { refusal_in result ≡ withdraw_refusal self.old name }
        ensures ok { OnOk result (self.new ≡ after_withdraw self.old name) }
        ensures err { OnErr result (self.new ≡ self.old) }
    {
        if self.end.core.failed {
            return Err(GlobalError::Failed);
        }
        match global_of(&self.role.globals, name) {
            Some(global) if global.present => {
                self.role.registries.unsettle();
                self.role.globals[name as usize - 1] = Advertised {
                    present: false,
                    ..global
                };
                Ok(())
            }
            _ => Err(GlobalError::NoSuchGlobal),
        }
    }
}

/// Whether an interface can be advertised at a version.
fn can_be_global(tables: &Tables, iface: Iface, version: u32) -> bool
    ensures { result ≡ can_be_global tables.now iface version }
{
    if iface == DISPLAY || iface == REGISTRY {
        return false;
    }
    match tables.version(iface) {
        Some(newest) => 1 <= version && version <= newest,
        None => false,
    }
}

/// The global with a name, present or withdrawn.
pub(crate) fn global_of(globals: &[Advertised], name: u32) -> Option<Advertised>
    ensures { result ≡ global_of globals.now name }
{
    let place = name.checked_sub(1)?;
    globals.get(place as usize).copied()
}

/// The names of the withdrawn globals among these.
pub(crate) fn withdrawn_names(globals: &[Advertised]) -> NameSet
    requires { length globals.now ≤ most_globals }
    ensures { AreWithdrawn globals.now result }
{
    let mut withdrawn = NameSet::new();
    'places: for (place, global) in globals.iter().enumerate() {
        if !global.present {
            withdrawn.set(place as u32 + 1);
        }
    }
    withdrawn
}
