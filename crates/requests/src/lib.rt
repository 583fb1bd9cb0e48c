// Requests as text: what their lines name, what is read of them, the room for their lists, and the answers of the entries that one party calls.
#![tactic(auto)]

pub mod bytes;
pub mod entries;
pub mod naming;
pub mod reading;
pub mod request;
pub mod storing;
