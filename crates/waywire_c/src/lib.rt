//! The library for C: signature tables, the two ends and the inspector behind handles, with one
//! export for each of their calls. The files of `c/` call these exports, after they test what C may
//! pass wrongly, and give them the names of `include/waywire.h`, which documents each call.
//!
//! An export takes a handle as a `&mut`, so it has the handle's target only for the duration of the
//! call. What a report or a name borrows is written as a pointer, which owns nothing.
#![tactic(auto)]

mod client;
mod decoding;
mod end;
mod end_handle;
mod followed;
mod held;
mod inspector;
mod inspector_handle;
mod making;
mod messages;
mod owned_tables;
mod parts;
mod reading;
mod recording;
mod reports;
mod sending;
mod server;
mod statuses;
mod tables;
mod tables_handle;
mod values;
