ghost use Rattle.std.specs.Prelude.{◌≡◌, IfOk, drop, take};
ghost use Rattle.af_sched.specs.Holding.{held_of, page_held};

use crate::counting::{count_runs, counts_of};
use crate::held::Held;
use crate::state::State;
use af_names::PoolName;
use af_pool::Pool;
use std::alloc::{AllocError, Global};
use std::slice;

impl State {
    /// The slots of the pool of this name that instances hold; none where there is no such pool. It goes over
    /// the runs that hold slots.
    pub fn held(&self, name: &PoolName) -> Held
        ensures { result ≡ held_of self.now.rows name.now }
    {
        let Some(pool) = self.pools.get(name) else {
            return Held::NONE;
        };
        let mut counts = [Held::NONE];
        count_runs(
            &self.by_id(),
            &self.runs,
            slice::from_ref(pool),
            &mut counts,
        );
        counts[0]
    }

    /// The slots of each pool of a page that instances hold: of so many of the pools, in order, after so many. It goes over
    /// the runs that hold slots once. `AllocError` only where a growth was refused.
    pub fn each_held(
        &self,
        alloc: Global,
        limit: usize,
        offset: usize,
    ) -> Result<Vec<Held>, AllocError>
        ensures { IfOk result (λ all. all.items ≡ page_held self.now.rows limit offset) }
    {
        let page = page_of(self.pools.rows(), limit, offset);
        counts_of(alloc, &self.by_id(), &self.runs, page)
    }
}

/// So many of these pools, after so many.
fn page_of(pools: &[Pool], limit: usize, offset: usize) -> &[Pool]
    ensures { result.now ≡ take limit (drop offset pools.now) }
{
    let rest = pools.get(offset..).unwrap_or(&[]);
    rest.get(..limit).unwrap_or(rest)
}
