ghost use Rattle.std.specs.Prelude.{◌≡◌, [], false, IfOk};

use crate::field_spans::FieldSpans;
use crate::incoming::Incoming;
use crate::outgoing::Outgoing;
use crate::routes::Routes;
use std::alloc::{AllocError, Global};

/// What a connection keeps from its opening on, beside its reader and its writer, which each call borrows.
pub struct Connection {
    /// Where the fields of the head that is read lie.
    pub fields: FieldSpans,
    /// The table of paths.
    pub routes: Routes,
    /// What came and was not used yet.
    pub incoming: Incoming,
    /// What waits for the writer.
    pub outgoing: Outgoing,
}

impl Drop for Connection {
    fn drop(self) {
        let Connection {
            fields: _,
            routes: _,
            incoming: _,
            outgoing: _,
        } = self;
    }
}

impl Connection {
    /// Takes all its memory. Nothing came, and nothing waits.
    pub fn open(alloc: Global) -> Result<Connection, AllocError>
        ensures { IfOk result (λ c. (c.incoming ≡ []) × (c.outgoing.bytes ≡ []) × (c.outgoing.failed ≡ false)) }
    {
        let routes = Routes::new(alloc)?;
        let (incoming, outgoing) = buffers(alloc)?;
        Ok(Connection {
            fields: FieldSpans::new(),
            routes,
            incoming,
            outgoing,
        })
    }

    /// The same memory for the next connection: nothing came, and nothing waits.
    pub fn again(self) -> Connection
        ensures { (result.incoming ≡ []) × (result.outgoing.bytes ≡ []) × (result.outgoing.failed ≡ false) }
    {
        let mut next = self;
        next.incoming.clear();
        next.outgoing.clear();
        next
    }
}

/// Room for what comes, and for what waits for the writer.
fn buffers(alloc: Global) -> Result<(Incoming, Outgoing), AllocError>
    ensures { IfOk result (λ both. (both.0 ≡ []) × (both.1.bytes ≡ []) × (both.1.failed ≡ false)) }
{
    let incoming = Incoming::new(alloc)?;
    let outgoing = Outgoing::new(alloc)?;
    Ok((incoming, outgoing))
}
