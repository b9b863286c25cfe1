// A pool as it is told.
ghost use Rattle.std.specs.Prelude.{◌≡◌, OnOk, false};
ghost use Rattle.af_ops.specs.Rows.{occupied_by, open_beside, pool_fields};
ghost use Rattle.af_ops.specs.Texts.{Adds};

use crate::row::Row;
use crate::text::Text;
use af_names::PoolName;
use af_sched::Held;
use std::alloc::{AllocError, Global};
use std::marker::Model;

/// A pool, borrowed, and the slots that instances hold of it.
#[derive(Drop)]
pub(crate) struct PoolRow<'a> {
    pub name: &'a PoolName,
    pub slots: u32,
    pub held: Held,
}

impl<'a> Model for PoolRow<'a> {
    ghost use Rattle.af_ops.specs.Rows.{PoolTold};

    ghost Value = { PoolTold };

    ghost view = { λ row. record { name = row.name.now; slots = row.slots; held = row.held } };
}

impl<'a> Row for PoolRow<'a> {
    ghost fields = { pool_fields };

    fn put_fields(&self, alloc: Global, out: &mut Text) -> Result<(), AllocError> {
        put_pool(alloc, out, self.name.as_str(), self.slots, self.held)
    }
}

fn put_pool(
    alloc: Global,
    out: &mut Text,
    name: &str,
    slots: u32,
    held: Held,
) -> Result<(), AllocError>
    ensures { OnOk result (Adds false out.old out.new (pool_fields (record { name = name.now; slots = slots; held = held }))) }
{
    out.text(alloc, false, "name", name)?;
    out.wide(true, "occupied_slots", occupied_by(held))?;
    out.wide(true, "open_slots", open_beside(slots, held))?;
    out.number(true, "queued_slots", held.queued)?;
    out.number(true, "running_slots", held.running)?;
    out.number(true, "slots", u64::from(slots))?;
    Ok(())
}

/// What is queued and what is running occupies slots.
fn occupied_by(held: Held) -> u128
    ensures { result ≡ occupied_by held }
{
    u128::from(held.queued) + u128::from(held.running)
}

/// The slots less those occupied, at least 0.
fn open_beside(slots: u32, held: Held) -> u128
    ensures { result ≡ open_beside slots held }
{
    u128::from(slots).saturating_sub(occupied_by(held))
}
