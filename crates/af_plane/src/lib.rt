//! The plane, where calls on the state are decided under the versions of a board; sessions over it; and a server for one thread.
#![tactic(auto)]

mod closed;
mod control;
mod control_session;
mod ended_session;
mod entry_taker;
mod grounds;
pub mod laws;
mod named;
mod parts;
mod plane;
mod request;
mod session;
mod session_issuer;
mod session_log;
mod session_permit;
mod solo;

pub use closed::Closed;
pub use control::Control;
pub use control_session::ControlSession;
pub use ended_session::EndedSession;
pub use entry_taker::EntryTaker;
pub use grounds::Grounds;
pub use named::Named;
pub use parts::Parts;
pub use plane::Plane;
pub use request::Request;
pub use session::Session;
pub use session_issuer::SessionIssuer;
pub use session_log::SessionLog;
pub use session_permit::SessionPermit;
pub use solo::Solo;
