//! What stands after a request for which there may be no memory: what is tested, and what it opens with and is asked. What a client is told
//! where there is memory is not tested here: conformance plays it.
mod asserts;
mod calls;
mod memory;
mod opening;
mod told;
mod users;
