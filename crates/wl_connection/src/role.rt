//! How an end reads the next message, client or server.
ghost use Rattle.std.specs.Prelude.{◌≡◌, ℕ, true, Err, List, Result, IfOk, IfSome, OnOk, OnErr};
ghost use Rattle.wl_sigs.specs.Side.{Side as SideOf};
ghost use Rattle.wl_sigs.specs.Tables.{Interface};
ghost use Rattle.wl_object_map.specs.Objects.{Objects as ObjectsView};
ghost use Rattle.wl_objects.specs.declared.error.Fault.{Fault as FaultState};
ghost use Rattle.wl_objects.specs.declared.parsed.ParsedArg.{ParsedArg};
ghost use Rattle.wl_objects.specs.Seen.{received_of};
ghost use Rattle.wl_connection.specs.Core.{Core as CoreState};
ghost use Rattle.wl_connection.specs.FirstMessage.{IsWellFormed, headed};
ghost use Rattle.wl_connection.specs.Outcomes.{read_as, unless_memory};
ghost use Rattle.wl_connection.specs.Receiving.{Found};
ghost use Rattle.wl_connection.specs.Roles.{Role as RoleOf, IsNext, IsLentNext, role_after};
ghost use Rattle.wl_connection.specs.Roles.{role_answer};

use crate::endpoint::Endpoint;
use std::alloc::AllocError;
use wl_objects::{Fault, NextError, Objects, Received, Table};
use wl_sigs::{Side, Tables};
use wl_wire::Header;

/// What messages mean to an end.
pub trait Meaning<T: Table>: Drop {
    /// A message that was found and not yet applied. It borrows nothing: its arguments are at the
    /// end that read it.
    type Pending: Copy;

    /// The side whose messages arrive.
    const SIDE: Side;

    ghost SIDE: { SideOf };

    // Given these tables and objects, a message with this body and these parsed arguments means
    // this, or is this fault.
    ghost Means: { Self → List Interface → ObjectsView → List ℕ → List ParsedArg → Found
        → Result Self.Pending FaultState → Type 0 };

    /// What a message that was read means, or the fault that it is.
    fn pending_of(
        &self,
        tables: &Tables,
        objects: &Objects<T>,
        header: Header,
        message: &Received<'_, '_>,
    ) -> Result<Self::Pending, Fault>
        requires read { IsWellFormed SIDE tables.now objects.now header message.now }
        ensures { Means self.now tables.now objects.now message.now.body.now message.now.args.now
            (headed header (received_of message.now)) result };
}

/// The role of an end: what it keeps besides its endpoint, and how it finds, copies and applies a
/// message.
pub trait Role<T: Table>: Meaning<T> {
    /// The report of a message, owned.
    type Owned: Drop;

    // What reports say, apart from where they lie in memory.
    ghost Report: { Type 0 };

    // The state of an end: its core, and what it keeps besides that.
    ghost State: { Type 0 };

    ghost state: { CoreState → Self → State };

    ghost role: { RoleOf State Report };

    ghost owned: { Self.Owned → Report };

    // What is reported about a message at the front, and about the message that was applied last.
    ghost fronts: { CoreState → List ParsedArg → Self.Pending → Report };

    ghost tells: { CoreState → List ParsedArg → Self.Pending → Report };

    // What holds between calls.
    ghost IsSound: { CoreState → Self → Type 0 };

    // This message is at the front and can be applied.
    ghost IsAhead: { CoreState → Self → List ParsedArg → Self.Pending → Type 0 };

    /// The first message, if it is whole and can be applied. The end fails with a fault; otherwise
    /// only the parsed arguments change.
    fn find(&self, end: &mut Endpoint<'_, T>) -> Result<Option<Self::Pending>, NextError>
        requires sound { IsSound end.old.core self.now }
        ensures answer { read_as (fronts end.old.core end.new.args) result
            ≡ role_answer role (state end.old.core self.now) }
        ensures same { IfOk result (λ _. end.new.core ≡ end.old.core) }
        ensures fails { OnErr result
            (state end.new.core self.now ≡ role_after role (state end.old.core self.now)) }
        ensures ahead { IfOk result (λ found. IfSome found
            (λ pending. IsAhead end.old.core self.now end.new.args pending)) }
        ensures sound { IsSound end.new.core self.now };

    /// Copies the report of a message that was found. Nothing changes.
    fn copy(
        &self,
        end: &mut Endpoint<'_, T>,
        alloc: &T::Alloc,
        pending: &Self::Pending,
    ) -> Result<Self::Owned, AllocError>
        requires ahead { IsAhead end.old.core self.now end.old.args pending.now }
        ensures core { end.new.core ≡ end.old.core }
        ensures args { end.new.args ≡ end.old.args }
        ensures ok { IfOk result
            (λ report. owned report ≡ fronts end.old.core end.old.args pending.now) }
        ensures wants { OnErr result
            (role.wants (fronts end.old.core end.old.args pending.now) ≡ true) };

    /// Applies a message that was found: removes it from the inbox, and makes its changes. If there
    /// is no memory for an object that it makes, nothing changes.
    fn apply(
        &mut self,
        end: &mut Endpoint<'_, T>,
        pending: &Self::Pending,
    ) -> Result<(), AllocError>
        requires sound { IsSound end.old.core self.old }
        requires ahead { IsAhead end.old.core self.old end.old.args pending.now }
        ensures args { end.new.args ≡ end.old.args }
        ensures ok { OnOk result
            (state end.new.core self.new ≡ role_after role (state end.old.core self.old)) }
        ensures told { OnOk result (tells end.new.core end.new.args pending.now
            ≡ fronts end.old.core end.old.args pending.now) }
        ensures err { OnErr result
            (state end.new.core self.new ≡ state end.old.core self.old) }
        ensures opens { OnErr result (role.opens (state end.old.core self.old) ≡ true) }
        ensures sound { IsSound end.new.core self.new };
}

/// Reads the next message at an end, and applies it. Its report is borrowed from the message that
/// was applied last.
pub fn read<T: Table, R: Role<T>>(
    end: &mut Endpoint<'_, T>,
    role: &mut R,
) -> Result<Option<R::Pending>, NextError>
    requires { R.IsSound end.old.core role.old }
    ensures answer { IsLentNext R.role (R.state end.old.core role.old)
        (read_as (R.tells end.new.core end.new.args) result) }
    ensures state { R.state end.new.core role.new
        ≡ unless_memory (R.state end.old.core role.old)
        (role_after R.role (R.state end.old.core role.old))
        (read_as (R.tells end.new.core end.new.args) result) }
    ensures sound { R.IsSound end.new.core role.new }
    // A message that was applied was at the front; one for which there was no memory still is.
    ensures ahead { IfOk result (λ read. IfSome read
        (λ pending. R.IsAhead end.old.core role.old end.new.args pending)) }
    ensures refused { result ≡ Err NextError.Memory
        → (pending : R.Pending) × R.IsAhead end.old.core role.old end.new.args pending }
{
    let pending = match role.find(end)? {
        Some(pending) => pending,
        None => return Ok(None),
    };
    match role.apply(end, &pending) {
        Ok(()) => Ok(Some(pending)),
        Err(_) => Err(NextError::Memory),
    }
}

/// Reads the next message at an end, copies its report, and applies it.
pub fn read_owned<T: Table, R: Role<T>>(
    end: &mut Endpoint<'_, T>,
    role: &mut R,
    alloc: &T::Alloc,
) -> Result<Option<(R::Owned, R::Pending)>, NextError>
    requires { R.IsSound end.old.core role.old }
    ensures answer { IsNext R.role (R.state end.old.core role.old)
        (read_as (λ read. R.owned read.0) result) }
    ensures state { R.state end.new.core role.new
        ≡ unless_memory (R.state end.old.core role.old)
        (role_after R.role (R.state end.old.core role.old))
        (read_as (λ read. R.owned read.0) result) }
    ensures sound { R.IsSound end.new.core role.new }
    ensures told { IfOk result (λ read. IfSome read
        (λ both. R.owned both.0 ≡ R.fronts end.old.core end.new.args both.1)) }
    ensures ahead { IfOk result (λ read. IfSome read
        (λ both. R.IsAhead end.old.core role.old end.new.args both.1)) }
    ensures refused { result ≡ Err NextError.Memory
        → (pending : R.Pending) × R.IsAhead end.old.core role.old end.new.args pending }
{
    let pending = match role.find(end)? {
        Some(pending) => pending,
        None => return Ok(None),
    };
    let report = match role.copy(end, alloc, &pending) {
        Ok(report) => report,
        Err(_) => return Err(NextError::Memory),
    };
    match role.apply(end, &pending) {
        Ok(()) => Ok(Some((report, pending))),
        Err(_) => Err(NextError::Memory),
    }
}
