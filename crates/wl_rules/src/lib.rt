//! The rules of valid signature tables, V1 to V11: which line of a text breaks one, and which is
//! the first.
//!
//! Tables are the interfaces and messages of Wayland's protocols. This crate judges the lines of a
//! text before tables are made of it; `wl_sigs` makes them, and looks up what they have.
#![tactic(auto)]

mod extending;
mod hash;
mod hashed;
mod places;
mod rules;
mod side;

pub use extending::{Gathered, gather, none_extends};
pub use hash::name_hash;
pub use hashed::HashedName;
pub use places::{Places, place_in, places_of};
pub use rules::{
    BrokenLine, MAX_ARGS, MAX_NAME_LEN, Owner, broken_at, earlier, interfaces_broken,
    is_first_name, message_rule,
};
pub use side::{Destroys, Side};
