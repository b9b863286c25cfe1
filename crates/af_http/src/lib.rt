//! HTTP/1.1 messages from bytes to bytes, over any reader, any writer and any service.
#![tactic(auto)]

mod answer;
mod answering;
mod connection;
mod counted;
mod ended;
mod extent;
mod field_spans;
mod fields;
mod fit;
mod gathering;
mod handled;
mod incoming;
pub mod laws;
mod likely;
mod lines;
mod message;
mod outgoing;
mod parts;
mod problems;
mod reading;
mod refusal;
mod reply;
mod replying;
mod request;
mod room;
mod route_fault;
mod routes;
mod scan;
mod service;
mod serving;
mod stream;
mod turn;
mod wording;
mod writing;

pub use counted::Counted;
pub use ended::Ended;
pub use room::Room;
pub use route_fault::RouteFault;
pub use routes::Routes;
pub use service::Service;
pub use serving::serve;
pub use stream::{Failed, Sink, Source};
pub use writing::write_all;
