use crate::route_fault::RouteFault;
use af_ops::Served;

/// What is made of a request.
#[derive(Drop)]
pub enum Reply {
    /// It names no operation.
    Fault(RouteFault),
    /// The service's answer.
    Served(Served),
}
