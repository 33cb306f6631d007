//! Calls for clients only. With a server each returns `OTHER_END`, and does nothing.
ghost use Rattle.std.specs.Prelude.{◌≡◌, ◌≢◌, ◌↔◌, true, Some, Ok};
ghost use Rattle.wl_client.specs.Calls.{after_bind, bind_answer};
ghost use Rattle.wl_client.specs.Unannounced.{after_unannounced, unannounced_answer};
ghost use Rattle.waywire_c.specs.declared.held.HeldEnd.TheVariants.{Client};
ghost use Rattle.waywire_c.specs.Ends.{IfClient, IfServer};
ghost use Rattle.waywire_c.specs.Statuses.{made_outcome, OrMemory};
ghost use Rattle.waywire_c.specs.Values.{made_object, object_from_c};
ghost use Rattle.waywire_c.specs.Inspecting.{IsTried};
ghost use Rattle.waywire_c.specs.Sizes.{AreAllowed};

use crate::end_handle::EndHandle;
use crate::held::HeldEnd;
use crate::making;
use crate::parts::address;
use crate::statuses::{OK, OTHER_END, send_status};
use crate::tables_handle::TablesHandle;
use crate::values::{CObject, CSizes};
use std::alloc::Global;

/// Makes a client with wl_display alone and empty queues, and writes its address to `client`.
#[unsafe(no_mangle)]
pub extern "C" fn waywire_c_client_new(
    alloc: Global,
    tables: TablesHandle,
    sizes: &CSizes,
    client: &mut *mut u8,
) -> u32
    ensures sizes { (result ≢ 63) ↔ AreAllowed sizes.now }
    ensures tried { result ≢ 63 → IsTried result }
    ensures none { result ≢ 0 → client.new ≡ client.old }
{
    match making::client_by(alloc, tables.lent(), sizes) {
        Ok(boxed) => {
            *client = address(boxed);
            OK
        }
        Err(status) => status,
    }
}

/// Writes the object that the last message read made to `made`, or id 0 if it made none.
#[unsafe(no_mangle)]
pub extern "C" fn waywire_c_client_made(end: &mut EndHandle, made: &mut CObject) -> u32
    ensures answer { IfClient end.old.held (λ client. result ≡ 0) }
    ensures made { IfClient end.old.held (λ client.
        object_from_c made.new ≡ made_object client.made) }
    ensures other { IfServer end.old.held (λ server. (result ≡ 66) × (made.new ≡ made.old)) }
    ensures unchanged { end.new.held ≡ end.old.held }
{
    let HeldEnd::Client(client) = end.get_mut() else {
        return OTHER_END;
    };
    *made = client.made().map_or(CObject::none(), CObject::of);
    OK
}

/// Binds a global, and writes the new object to `bound`.
#[unsafe(no_mangle)]
pub extern "C" fn waywire_c_client_bind(
    end: &mut EndHandle,
    registry: CObject,
    name: u32,
    interface: &[u8],
    version: u32,
    bound: &mut CObject,
) -> u32
    ensures answer { IfClient end.old.held (λ client. OrMemory true
        (made_outcome (bind_answer client (object_from_c registry) name interface.now version))
        result) }
    ensures other { IfServer end.old.held (λ server. result ≡ 66) }
    ensures bound { result ≡ 0 → IfClient end.old.held (λ client.
        bind_answer client (object_from_c registry) name interface.now version
        ≡ Ok (Some (object_from_c bound.new))) }
    ensures unbound { result ≢ 0 → bound.new ≡ bound.old }
    ensures state { result ≡ 0 → IfClient end.old.held (λ client. end.new.held
        ≡ Client (after_bind client (object_from_c registry) name interface.now version)) }
    ensures unchanged { result ≢ 0 → end.new.held ≡ end.old.held }
{
    let HeldEnd::Client(client) = end.get_mut() else {
        return OTHER_END;
    };
    match client.bind(registry.object(), name, interface, version) {
        Ok(object) => {
            *bound = CObject::of(object);
            OK
        }
        Err(why) => send_status(why),
    }
}

/// Binds a global that need not have been announced, and writes the new object to `bound`.
#[unsafe(no_mangle)]
pub extern "C" fn waywire_c_client_bind_unannounced(
    end: &mut EndHandle,
    registry: CObject,
    name: u32,
    interface: &[u8],
    version: u32,
    bound: &mut CObject,
) -> u32
    ensures answer { IfClient end.old.held (λ client. OrMemory true
        (made_outcome
        (unannounced_answer client (object_from_c registry) name interface.now version)) result) }
    ensures other { IfServer end.old.held (λ server. result ≡ 66) }
    ensures bound { result ≡ 0 → IfClient end.old.held (λ client.
        unannounced_answer client (object_from_c registry) name interface.now version
        ≡ Ok (Some (object_from_c bound.new))) }
    ensures unbound { result ≢ 0 → bound.new ≡ bound.old }
    ensures state { result ≡ 0 → IfClient end.old.held (λ client. end.new.held ≡ Client
        (after_unannounced client (object_from_c registry) name interface.now version)) }
    ensures unchanged { result ≢ 0 → end.new.held ≡ end.old.held }
{
    let HeldEnd::Client(client) = end.get_mut() else {
        return OTHER_END;
    };
    match client.bind_unannounced(registry.object(), name, interface, version) {
        Ok(object) => {
            *bound = CObject::of(object);
            OK
        }
        Err(why) => send_status(why),
    }
}
