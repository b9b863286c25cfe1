// A pool of the configuration: `name` and `slots`.
ghost use Rattle.std.specs.Prelude.{◌≡◌, Some, None};
ghost use Rattle.af_base.specs.JsonValue.{view};
ghost use Rattle.af_graph.specs.Graph.{same_name};
ghost use Rattle.af_pool.specs.Pools.{default_name};
ghost use Rattle.af_base.specs.Readings.{Makes};
ghost use Rattle.af_server.specs.declared.reason.Reason.{Reason};
ghost use Rattle.af_server.specs.PoolRows.{further_pool, placed_pool, pool_taken, set_default};

use super::draft::StateDraft;
use crate::members::{name, number};
use crate::reason::Reason;
use af_base::Json;
use af_graph::MOST_SLOTS;
use af_names::PoolName;
use af_pool::DEFAULT_POOL;
use std::alloc::Global;

/// The least and the most slots.
const SLOTS: (u32, u32) = (0, MOST_SLOTS as u32);

/// Adds the pool of a row. The default pool may come once, and then it has these slots.
pub fn add_pool(alloc: Global, draft: &mut StateDraft, row: &Json<'_>) -> Result<(), Reason>
    ensures { Makes Reason.Memory (pool_taken draft.old (view row.now)) draft.new result }
{
    let name: PoolName = name(alloc, row, "name")?;
    let slots = number(row, "slots", SLOTS)?;
    place_pool(draft, name, slots)
}

fn place_pool(draft: &mut StateDraft, name: PoolName, slots: u32) -> Result<(), Reason>
    ensures { Makes Reason.Memory (placed_pool draft.old record { name = name; slots = slots }) draft.new result }
{
    if is_default(&name) {
        set_default(draft, &name, slots)
    } else {
        further_pool(draft, name, slots)
    }
}

/// Whether the name is that of the default pool.
fn is_default(name: &PoolName) -> bool
    ensures { result ≡ same_name name.now default_name }
{
    name.as_str() == DEFAULT_POOL
}

fn set_default(draft: &mut StateDraft, name: &PoolName, slots: u32) -> Result<(), Reason>
    ensures { Makes Reason.Memory (set_default draft.old record { name = name.now; slots = slots }) draft.new result }
{
    if draft.has_default {
        return Err(Reason::Duplicate);
    }
    draft.state.set_slots(name, u64::from(slots))?;
    draft.has_default = true;
    Ok(())
}

fn further_pool(draft: &mut StateDraft, name: PoolName, slots: u32) -> Result<(), Reason>
    ensures { Makes Reason.Memory (further_pool draft.old record { name = name; slots = slots }) draft.new result }
{
    draft.state.add_pool(name, u64::from(slots))?;
    Ok(())
}
