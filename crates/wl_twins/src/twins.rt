//! Which objects of two ends are each other's twins.
ghost use Rattle.std.specs.Prelude.{◌≡◌, ◌≢◌, IfOk, IfSome, OnOk, Some, None};
ghost use Rattle.wl_object_map.specs.declared.object.Object.{Object as AnObject};
ghost use Rattle.wl_objects.specs.Parsed.{lent_got};
ghost use Rattle.wl_twins.specs.Twins.{client_twin, server_twin};
ghost use Rattle.wl_twins.specs.Forwarding.{IsForwarded};

use crate::forward::{forward, object_of};
use std::alloc::{AllocError, Allocator, Global};
use std::collections::BTreeMap;
use wl_objects::{Arg, GotRef, Object};

/// An object's id and birth. A birth alone does not identify it: each end counts births separately
/// for its own ids and for the other end's.
fn key_of(object: Object) -> (u32, u64)
    ensures { result ≡ (object.id, object.birth) }
{
    let Object { id, birth } = object;
    (id, birth)
}

/// Pairs of a server's object and a client's object that are each other's twins. Only id and birth
/// together identify an object, so a past object is nobody's twin, whatever has its id now.
#[derive(Drop)]
pub struct Twins<A: Allocator = Global> {
    /// The client's objects, by their twins at the server.
    at_client: BTreeMap<(u32, u64), Object, A>,
    /// The server's objects, by their twins at the client.
    at_server: BTreeMap<(u32, u64), Object, A>,
}

impl<A: Allocator + Clone + Drop> Twins<A> {
    /// No twins.
    pub fn new(alloc: A) -> Result<Self, AllocError>
        ensures none_at_client { IfOk result
            (λ twins. (object : AnObject) → client_twin twins object ≡ None) }
        ensures none_at_server { IfOk result
            (λ twins. (object : AnObject) → server_twin twins object ≡ None) }
    {
        Ok(Twins {
            at_client: BTreeMap::new(alloc.clone()?),
            at_server: BTreeMap::new(alloc),
        })
    }

    /// Makes two objects twins. Without memory all other twins stay.
    pub fn add(&mut self, at_server: Object, at_client: Object) -> Result<(), AllocError>
        ensures client { OnOk result (client_twin self.new at_server ≡ Some at_client) }
        ensures server { OnOk result (server_twin self.new at_client ≡ Some at_server) }
        ensures others_at_client { (other : AnObject) → other ≢ at_server
            → client_twin self.new other ≡ client_twin self.old other }
        ensures others_at_server { (other : AnObject) → other ≢ at_client
            → server_twin self.new other ≡ server_twin self.old other }
    {
        self.at_client.insert(key_of(at_server), at_client)?;
        self.at_server.insert(key_of(at_client), at_server)?;
        Ok(())
    }

    /// The client's twin of a server's object.
    pub fn at_client(&self, of_server: Object) -> Option<Object>
        ensures { result ≡ client_twin self.now of_server }
    {
        self.at_client.get(&key_of(of_server)).copied()
    }

    /// The server's twin of a client's object.
    pub fn at_server(&self, of_client: Object) -> Option<Object>
        ensures { result ≡ server_twin self.now of_client }
    {
        self.at_server.get(&key_of(of_client)).copied()
    }

    /// Removes a client's object and its twin, which is returned. All other twins stay.
    pub fn remove(&mut self, of_client: Object) -> Option<Object>
        ensures twin { result ≡ server_twin self.old of_client }
        ensures gone { server_twin self.new of_client ≡ None }
        ensures gone_with_it { IfSome (server_twin self.old of_client)
            (λ twin. client_twin self.new twin ≡ None) }
        ensures others_at_server { (other : AnObject) → other ≢ of_client
            → server_twin self.new other ≡ server_twin self.old other }
        ensures others_at_client { (other : AnObject)
            → IfSome (server_twin self.old of_client) (λ twin. other ≢ twin)
            → client_twin self.new other ≡ client_twin self.old other }
    {
        let twin = self.at_server.remove(&key_of(of_client))?;
        let _ = self.at_client.remove(&key_of(twin));
        Some(twin)
    }

    /// An argument of a request as an argument of the client's call: an object becomes its twin, a
    /// new object one that the call makes. `None` if the object has no twin, and for a bind, for
    /// which there is a separate call.
    pub fn request_arg<'a>(&self, argument: GotRef<'a>) -> Option<Arg<'a>>
        ensures { IsForwarded (client_twin self.now) (lent_got argument.entry) result }
    {
        match object_of(argument) {
            Some(object) => forward(argument, Some(self.at_client(object)?)),
            None => forward(argument, None),
        }
    }

    /// The same for an argument of an event and the server's call.
    pub fn event_arg<'a>(&self, argument: GotRef<'a>) -> Option<Arg<'a>>
        ensures { IsForwarded (server_twin self.now) (lent_got argument.entry) result }
    {
        match object_of(argument) {
            Some(object) => forward(argument, Some(self.at_server(object)?)),
            None => forward(argument, None),
        }
    }
}
