use crate::named::Named;
use crate::session_issuer::SessionIssuer;
use std::marker::PhantomData;

/// A permit to open one session of a control, which takes it. Only the control's issuer gives any.
#[derive(Drop)]
pub struct SessionPermit<N: Named> {
    of: PhantomData<N>,
}

impl<N: Named> SessionPermit<N> {
    /// A permit of the control that has this issuer.
    pub(crate) fn of(_issuer: &SessionIssuer<N>) -> SessionPermit<N> {
        SessionPermit { of: PhantomData }
    }
}
