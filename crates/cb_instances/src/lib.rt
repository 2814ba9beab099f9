//! Live instances under numbers that stay, found by name, with links and mutes, changed in place.
#![tactic(auto)]

mod forget;
mod id;
mod instance;
mod items;
mod join;
mod links;
mod mutes;
mod net;

pub use id::InstanceId;
pub use net::Net;
