use af_ops::Endpoint;

/// What each answer passes after its decision, outside the lock, before it is written.
pub trait Gate {
    /// Lets an answer of this endpoint pass, at once or later.
    fn pass(&self, endpoint: Endpoint);
}

/// The gate that holds no answer.
#[derive(Clone, Copy, Debug, Drop)]
pub struct Open;

impl Gate for Open {
    fn pass(&self, _endpoint: Endpoint) {}
}

impl<G: Gate> Gate for &G {
    fn pass(&self, endpoint: Endpoint) {
        (**self).pass(endpoint)
    }
}
