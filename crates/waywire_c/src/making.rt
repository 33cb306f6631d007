//! Making the targets of handles.
ghost use Rattle.std.specs.Prelude.{◌≡◌, ◌≢◌, ◌⊎◌, ◌↔◌, [], Ok, Err, IfOk, MatchResult};
ghost use Rattle.wl_message.specs.Arrived.{AreSizes};
ghost use Rattle.wl_message.specs.Cut.{IsLimit};
ghost use Rattle.wl_sigs.specs.Core.{core_tables, unended_tables};
ghost use Rattle.wl_sigs.specs.Outcome.{outcome};
ghost use Rattle.wl_text.specs.declared.fault.TableFault.TheVariants.{Memory};
ghost use Rattle.wl_connection.specs.MoreTables.{Extend};
ghost use Rattle.wl_client.specs.State.{new_state as new_client};
ghost use Rattle.wl_server.specs.State.{new_state as new_server};
ghost use Rattle.waywire_c.specs.declared.held.HeldEnd.TheVariants.{Client as MadeClient};
ghost use Rattle.waywire_c.specs.declared.held.HeldEnd.TheVariants.{Server as MadeServer};
ghost use Rattle.wl_check.specs.Following.{IsNewFollower};
ghost use Rattle.wl_check.specs.Inspected.{printed, HasPassed};
ghost use Rattle.waywire_c.specs.Inspecting.{IsTried};
ghost use Rattle.waywire_c.specs.Sizes.{AreAllowed, IsNewBy};
ghost use Rattle.waywire_c.specs.Statuses.{making_outcome};

use crate::held::{HeldEnd, HeldInspector, HeldTables};
use crate::statuses::{BAD_SIZES, NO_MEMORY};
use crate::values::CSizes;
use std::alloc::{AllocError, Global};
use wl_check::{Follower, Inspector};
use wl_client::Client;
use wl_connection::texts_extend;
use wl_message::{Limit, Sizes};
use wl_server::Server;
use wl_sigs::{TableFault, Tables};

// A value in a box.
fn boxed<T: Drop>(alloc: Global, value: T) -> Result<Box<T>, AllocError>
    ensures { IfOk result (λ boxed. boxed.value ≡ value) }
{
    match Box::new(alloc, value) {
        Ok(boxed) => Ok(boxed),
        Err(_) => Err(AllocError),
    }
}

// Tables in a box.
fn held(alloc: Global, tables: Tables) -> Result<Box<HeldTables>, AllocError>
    ensures { IfOk result (λ held. held.value.tables ≡ tables) }
{
    boxed(alloc, HeldTables { tables })
}

/// The core tables.
pub fn core_tables(alloc: Global) -> Result<Box<HeldTables>, AllocError>
    ensures { IfOk result (λ held. held.value.tables ≡ core_tables) }
{
    held(alloc, Tables::core(alloc)?)
}

/// The core tables for a server whose caller ends objects.
pub fn unended_tables(alloc: Global) -> Result<Box<HeldTables>, AllocError>
    ensures { IfOk result (λ held. held.value.tables ≡ unended_tables) }
{
    held(alloc, Tables::core_unended(alloc)?)
}

/// These tables with those of a text added.
pub fn more_tables(
    alloc: Global,
    tables: &Tables,
    text: &[u8],
) -> Result<Box<HeldTables>, TableFault>
    ensures made { MatchResult result
        (λ held. outcome tables.now text.now ≡ Ok held.value.tables)
        (λ why. (outcome tables.now text.now ≡ Err why) ⊎ (why ≡ Memory)) }
    ensures extend { IfOk result (λ held. Extend tables.now held.value.tables) }
{
    texts_extend();
    let joined = tables.read_more(text)?;
    match held(alloc, joined) {
        Ok(boxed) => Ok(boxed),
        Err(_) => Err(TableFault::Memory),
    }
}

/// A client with these tables.
pub fn client(
    alloc: Global,
    tables: &'static Tables,
    sizes: Sizes,
) -> Result<Box<HeldEnd>, AllocError>
    requires { AreSizes sizes }
    ensures { IfOk result (λ made. made.value ≡ MadeClient (new_client tables.now sizes)) }
{
    let client = Client::new(alloc, tables, sizes)?;
    boxed(alloc, HeldEnd::Client(client))
}

/// A client with these tables and the sizes given by C. Otherwise a status: `BAD_SIZES` if no end
/// can have them, else `NO_MEMORY`.
pub fn client_by(
    alloc: Global,
    tables: &'static Tables,
    sizes: &CSizes,
) -> Result<Box<HeldEnd>, u32>
    ensures made { IfOk result (λ made.
        IsNewBy (λ sizes. MadeClient (new_client tables.now sizes)) sizes.now made.value) }
    ensures sizes { making_outcome result ≢ 63 ↔ AreAllowed sizes.now }
    ensures tried { making_outcome result ≢ 63 → IsTried (making_outcome result) }
{
    let Some(sizes) = sizes.sizes() else {
        return Err(BAD_SIZES);
    };
    match client(alloc, tables, sizes) {
        Ok(boxed) => Ok(boxed),
        Err(_) => Err(NO_MEMORY),
    }
}

/// A server with these tables.
pub fn server(
    alloc: Global,
    tables: &'static Tables,
    sizes: Sizes,
) -> Result<Box<HeldEnd>, AllocError>
    requires { AreSizes sizes }
    ensures { IfOk result (λ made. made.value ≡ MadeServer (new_server tables.now sizes)) }
{
    let server = Server::new(alloc, tables, sizes)?;
    boxed(alloc, HeldEnd::Server(server))
}

/// A server with these tables and the sizes given by C; otherwise a status, as for a client.
pub fn server_by(
    alloc: Global,
    tables: &'static Tables,
    sizes: &CSizes,
) -> Result<Box<HeldEnd>, u32>
    ensures made { IfOk result (λ made.
        IsNewBy (λ sizes. MadeServer (new_server tables.now sizes)) sizes.now made.value) }
    ensures sizes { making_outcome result ≢ 63 ↔ AreAllowed sizes.now }
    ensures tried { making_outcome result ≢ 63 → IsTried (making_outcome result) }
{
    let Some(sizes) = sizes.sizes() else {
        return Err(BAD_SIZES);
    };
    match server(alloc, tables, sizes) {
        Ok(boxed) => Ok(boxed),
        Err(_) => Err(NO_MEMORY),
    }
}

/// An inspector with these tables and this limit, which no piece has passed.
pub fn inspector(
    alloc: Global,
    tables: &'static Tables,
    limit: Limit,
) -> Result<Box<HeldInspector>, AllocError>
    ensures passed { IfOk result (λ made.
        HasPassed limit.bytes tables.now [] made.value.inspector) }
    ensures lines { IfOk result (λ made. printed made.value.inspector ≡ []) }
    ensures follower { IfOk result (λ made. IsNewFollower tables.now limit.bytes
        made.value.follower) }
{
    let inspector = Inspector::new(alloc, tables, limit)?;
    let follower = Follower::new(alloc, tables, limit)?;
    boxed(
        alloc,
        HeldInspector {
            inspector,
            follower,
            line: Vec::new(alloc),
        },
    )
}

/// An inspector with these tables and a limit given by C, which no piece has passed. Otherwise a
/// status: `BAD_SIZES` if no message has the limit, else `NO_MEMORY`.
pub fn inspector_by(
    alloc: Global,
    tables: &'static Tables,
    limit: u32,
) -> Result<Box<HeldInspector>, u32>
    ensures passed { IfOk result (λ made. HasPassed limit tables.now [] made.value.inspector) }
    ensures lines { IfOk result (λ made. printed made.value.inspector ≡ []) }
    ensures follower { IfOk result (λ made. IsNewFollower tables.now limit made.value.follower) }
    ensures limit { making_outcome result ≢ 63 ↔ IsLimit limit }
    ensures tried { making_outcome result ≢ 63 → IsTried (making_outcome result) }
{
    let Some(limit) = Limit::new(limit) else {
        return Err(BAD_SIZES);
    };
    match inspector(alloc, tables, limit) {
        Ok(boxed) => Ok(boxed),
        Err(_) => Err(NO_MEMORY),
    }
}
