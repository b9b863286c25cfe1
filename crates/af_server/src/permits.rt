use af_plane::{Named, SessionIssuer, SessionPermit};

/// What issues permits to work on what threads share.
pub trait Permits<T> {
    /// A permit for one thread.
    fn issue(&self) -> T;
}

impl<N: Named> Permits<SessionPermit<N>> for SessionIssuer<N> {
    fn issue(&self) -> SessionPermit<N> {
        self.permit()
    }
}
