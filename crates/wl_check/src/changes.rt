//! The changes by a message.
use wl_objects::NewObject;
use wl_recording::Direction;
use wl_wire::Iface;

/// A global, as an event advertises it.
#[derive(Clone, Copy, Debug)]
pub struct AdvertisedGlobal {
    pub name: u32,
    pub iface: Iface,
    pub version: u32,
}

/// How a message changes what is known about a session.
#[derive(Clone, Copy, Debug)]
pub struct MessageChanges {
    pub direction: Direction,
    /// The object that it makes.
    pub made: Option<NewObject>,
    /// The id that it frees, if it is a delete_id.
    pub deleted: Option<u32>,
    /// The id of the object that it destroys.
    pub destroyed: Option<u32>,
    /// The global that it advertises, if its interface is in the tables.
    pub advertised: Option<AdvertisedGlobal>,
    /// How many tokens it takes.
    pub tokens: usize,
    /// Whether it is wl_display.error, which ends the session.
    pub is_error: bool,
}
