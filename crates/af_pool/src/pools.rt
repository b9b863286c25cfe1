ghost use Rattle.std.specs.Prelude.{◌≡◌, ◌≢◌, ◌⊎◌, ◌+◌, ◌-◌, ◌^◌, ◌<◌, ◌≤◌, ◌∷◌, [], Err, Some, IfOk, IfErr, IfSome, IsNone, IsOk, OnOk, OnErr, MatchResult, min, option_copied, is_ok, if◌then◌else◌};
ghost use Rattle.af_pool.specs.Places.{CanAdd, CanSet, CanRemove};
ghost use Rattle.af_graph.specs.Graph.{same_name};
ghost use Rattle.af_pool.specs.Pools.{ArePools, NeededStay, default_name, has_pool, pool_of, slots_of, is_in_use, with_pool, with_slots, without_pool, add_fault, set_fault, remove_fault, IsOkOrOutOfMemory, occupied_slots, occupied_in, open_slots};

use crate::copying::copied;
use crate::fault::PoolFault;
use crate::names_pools::NamesPools;
use crate::occupant::{Occupant, slots_in, slots_taken};
use crate::pool::{Pool, SetSlots};
use af_base::Ordered;
use af_graph::{MOST_SLOTS, TaskState};
use af_names::PoolName;
use std::alloc::{AllocError, Global};
use std::marker::Model;

/// The name of the pool that is always there.
pub const DEFAULT_POOL: &str = "default_pool";

/// The slots that the default pool has at first.
const DEFAULT_SLOTS: u32 = 128;

/// The most pools that there are.
pub const MOST_POOLS: usize = 65_536;

/// The pools, by name in byte order. Contracts see them as that list of rows, beside the number of rows for which
/// memory is reserved.
pub struct Pools {
    rows: Ordered<Pool>,
}

impl Drop for Pools {
    fn drop(self) {
        let Pools { rows: _ } = self;
    }
}

impl Model for Pools {
    ghost use Rattle.af_pool.specs.Pools.{PoolRows, ArePools};

    ghost Value = { PoolRows };

    ghost view = { λ pools. pools.rows };

    ghost invariant = { λ pools. ArePools pools.rows.rows };
}

impl Pools {
    /// The default pool alone, with 128 slots. `AllocError` only where a growth was refused.
    pub fn new(alloc: Global) -> Result<Pools, AllocError>
        ensures { IfOk result (λ pools. pools.rows ≡ record { name = default_name; slots = 128 } ∷ []) }
    {
        let Ok(name) = PoolName::parse(alloc, DEFAULT_POOL) else {
            return Err(AllocError);
        };
        let mut rows = Ordered::new(alloc);
        rows.insert_at(
            0,
            Pool {
                name,
                slots: DEFAULT_SLOTS,
            },
        )?;
        Ok(Pools { rows })
    }

    /// The same pools again. `AllocError` only where a growth was refused.
    pub fn copied(&self, alloc: Global) -> Result<Pools, AllocError>
        ensures { IfOk result (λ pools. pools.rows ≡ self.now.rows) }
    {
        let rows = copied(alloc, self.rows())?;
        Ok(Pools { rows })
    }

    /// The rows, by name in byte order.
    pub fn rows(&self) -> &[Pool]
        ensures rows { result.now ≡ self.now.rows }
        ensures kept { ArePools self.now.rows }
    {
        self.rows.rows()
    }

    /// For how many more pools memory is reserved.
    pub fn spare(&self) -> usize
        ensures { result ≡ self.now.spare }
    {
        self.rows.spare()
    }

    /// Reserves memory for that many more pools. `AllocError` only where a growth was refused, so never where there is
    /// room already; then as before.
    pub fn reserve(&mut self, additional: usize) -> Result<(), AllocError>
        ensures ok { OnOk result (additional ≤ self.new.spare) }
        ensures roomy { additional ≤ self.old.spare → IsOk result }
        ensures err { OnErr result (self.new.spare ≡ self.old.spare) }
        ensures rows { self.new.rows ≡ self.old.rows }
        ensures spare { self.old.spare ≤ self.new.spare }
    {
        self.rows.reserve(additional)
    }

    /// Why a pool of this name with these slots would not be added, memory aside: `BadSlots` above 1,000,000 slots;
    /// `Exists` where a pool has the name; `Full` at 65,536 pools.
    pub fn add_fault(&self, name: &PoolName, slots: u64) -> Option<PoolFault>
        ensures { result ≡ add_fault self.now.rows name.now slots }
    {
        self.place_to_add(name, slots).err()
    }

    /// Adds a pool. Its faults are those of `add_fault`, and `OutOfMemory`, only where a growth was refused and never
    /// where memory is reserved. A fault leaves the pools as they were.
    pub fn add(&mut self, name: PoolName, slots: u64) -> Result<(), PoolFault>
        ensures refused { IfSome (add_fault self.old.rows name slots) (λ fault. result ≡ Err fault) }
        ensures accepted { IsNone (add_fault self.old.rows name slots) → IsOkOrOutOfMemory result }
        ensures ok { OnOk result (
            self.new.rows ≡ with_pool self.old.rows record { name = name; slots = slots }) }
        ensures err { OnErr result (self.new.rows ≡ self.old.rows) }
        ensures roomy { 0 < self.old.spare → result ≢ Err PoolFault.OutOfMemory }
        ensures spare { self.old.spare ≤ self.new.spare + (if is_ok result then 1 else 0) }
    {
        let place = self.place_to_add(&name, slots)?;
        let slots = slots as u32;
        self.rows.insert_at(place, Pool { name, slots })?;
        Ok(())
    }

    /// Why the pool of this name would not get these slots: `BadSlots` above 1,000,000; `NoSuchPool` where no pool has
    /// the name.
    pub fn set_fault(&self, name: &PoolName, slots: u64) -> Option<PoolFault>
        ensures { result ≡ set_fault self.now.rows name.now slots }
    {
        self.place_to_set(name, slots).err()
    }

    /// Gives a pool other slots. Its faults are those of `set_fault`; a fault leaves the pools as they were.
    pub fn set_slots(&mut self, name: &PoolName, slots: u64) -> Result<(), PoolFault>
        ensures refused { IfSome (set_fault self.old.rows name.now slots) (λ fault. result ≡ Err fault) }
        ensures accepted { IsNone (set_fault self.old.rows name.now slots) → IsOk result }
        ensures ok { OnOk result (self.new ≡ record self.old { rows = with_slots self.old.rows name.now slots }) }
        ensures err { OnErr result (self.new ≡ self.old) }
    {
        let place = self.place_to_set(name, slots)?;
        let slots = slots as u32;
        self.rows
            .change_at(name.as_str(), place, SetSlots { slots });
        Ok(())
    }

    /// Why the pool of this name would not be removed: `NoSuchPool` where no pool has the name; `DefaultPool` for the
    /// default pool; `InUse` where one of the rows names it.
    pub fn remove_fault<T: NamesPools>(&self, name: &PoolName, rows: &[T]) -> Option<PoolFault>
        ensures { result ≡ remove_fault T.pools rows.now self.now.rows name.now }
    {
        self.place_to_remove(name, rows).err()
    }

    /// Removes a pool. Its faults are those of `remove_fault`; a fault leaves the pools as they were.
    pub fn remove<T: NamesPools>(&mut self, name: &PoolName, rows: &[T]) -> Result<(), PoolFault>
        ensures refused { IfSome (remove_fault T.pools rows.now self.old.rows name.now) (λ fault. result ≡ Err fault) }
        ensures accepted { IsNone (remove_fault T.pools rows.now self.old.rows name.now) → IsOk result }
        ensures ok { OnOk result (self.new.rows ≡ without_pool self.old.rows name.now) }
        ensures err { OnErr result (self.new ≡ self.old) }
        ensures spare { self.old.spare ≤ self.new.spare }
        // No pool that is needed goes, whatever is answered.
        ensures needed { NeededStay T.pools rows.now self.old.rows self.new.rows }
    {
        let place = self.place_to_remove(name, rows)?;
        let _pool = self.rows.remove_at(name.as_str(), place);
        Ok(())
    }

    /// Where the row of a pool that may be added goes.
    fn place_to_add(&self, name: &PoolName, slots: u64) -> Result<usize, PoolFault>
        ensures ok { IfOk result (CanAdd self.now.rows name.now slots) }
        ensures err { IfErr result (λ fault. add_fault self.now.rows name.now slots ≡ Some fault) }
    {
        if slots > MOST_SLOTS {
            return Err(PoolFault::BadSlots);
        }
        match self.rows.place(name.as_str()) {
            Ok(_) => Err(PoolFault::Exists),
            Err(_) if self.rows().len() >= MOST_POOLS => Err(PoolFault::Full),
            Err(place) => Ok(place),
        }
    }

    /// Where the row of a pool that may get these slots stands.
    fn place_to_set(&self, name: &PoolName, slots: u64) -> Result<usize, PoolFault>
        ensures ok { IfOk result (CanSet self.now.rows name.now slots) }
        ensures err { IfErr result (λ fault. set_fault self.now.rows name.now slots ≡ Some fault) }
    {
        if slots > MOST_SLOTS {
            return Err(PoolFault::BadSlots);
        }
        match self.rows.place(name.as_str()) {
            Ok(place) => Ok(place),
            Err(_) => Err(PoolFault::NoSuchPool),
        }
    }

    /// Where the row of a pool that may be removed stands.
    fn place_to_remove<T: NamesPools>(
        &self,
        name: &PoolName,
        rows: &[T],
    ) -> Result<usize, PoolFault>
        ensures ok { IfOk result (CanRemove T.pools rows.now self.now.rows name.now) }
        ensures err { IfErr result (λ fault. remove_fault T.pools rows.now self.now.rows name.now ≡ Some fault) }
    {
        match self.rows.place(name.as_str()) {
            Err(_) => Err(PoolFault::NoSuchPool),
            Ok(_) if is_default(name) => Err(PoolFault::DefaultPool),
            Ok(_) if is_in_use(name, rows) => Err(PoolFault::InUse),
            Ok(place) => Ok(place),
        }
    }

    /// Whether there is a pool of this name.
    pub fn has(&self, name: &PoolName) -> bool
        ensures { result ≡ has_pool self.now.rows name.now }
    {
        self.rows.has(name.as_str())
    }

    /// The pool of this name.
    pub fn get(&self, name: &PoolName) -> Option<&Pool>
        ensures { option_copied result ≡ pool_of self.now.rows name.now }
    {
        self.rows.get(name.as_str())
    }

    /// The slots of the pool of this name; 0 where there is none.
    pub fn slots(&self, name: &PoolName) -> u32
        ensures { result ≡ slots_of self.now.rows name.now }
    {
        self.get(name).map_or(0, |pool| pool.slots)
    }

    /// The slots that the instances occupy in the pool of this name, or the largest `u64` where they are more; 0
    /// where there is no such pool.
    pub fn occupied(&self, name: &PoolName, occupants: &[Occupant<'_>]) -> u64
        ensures { result ≡ min (occupied_slots self.now.rows name.now occupants.now) (2 ^ 64 - 1) }
    {
        if !self.has(name) {
            return 0;
        }
        u64::try_from(slots_taken(name, occupants)).unwrap_or(u64::MAX)
    }

    /// The part of `occupied` that queued instances hold.
    pub fn queued(&self, name: &PoolName, occupants: &[Occupant<'_>]) -> u64
        ensures { result ≡ min
            (occupied_in TaskState.Queued self.now.rows name.now occupants.now) (2 ^ 64 - 1) }
    {
        self.occupied_in(TaskState::Queued, name, occupants)
    }

    /// The part of `occupied` that running instances hold.
    pub fn running(&self, name: &PoolName, occupants: &[Occupant<'_>]) -> u64
        ensures { result ≡ min
            (occupied_in TaskState.Running self.now.rows name.now occupants.now) (2 ^ 64 - 1) }
    {
        self.occupied_in(TaskState::Running, name, occupants)
    }

    fn occupied_in(&self, state: TaskState, name: &PoolName, occupants: &[Occupant<'_>]) -> u64
        ensures { result ≡ min (occupied_in state self.now.rows name.now occupants.now) (2 ^ 64 - 1) }
    {
        if !self.has(name) {
            return 0;
        }
        u64::try_from(slots_in(state, name, occupants)).unwrap_or(u64::MAX)
    }

    /// The slots that are open in the pool of this name: its slots less those that the instances occupy, at least 0;
    /// 0 where there is no such pool.
    pub fn open(&self, name: &PoolName, occupants: &[Occupant<'_>]) -> u64
        ensures { result ≡ open_slots self.now.rows name.now occupants.now }
    {
        u64::from(self.slots(name)).saturating_sub(self.occupied(name, occupants))
    }
}

/// Whether the name is that of the default pool.
fn is_default(name: &PoolName) -> bool
    ensures { result ≡ same_name name.now default_name }
{
    name.as_str() == DEFAULT_POOL
}

/// Whether one of the rows names the pool.
fn is_in_use<T: NamesPools>(name: &PoolName, rows: &[T]) -> bool
    ensures { result ≡ is_in_use T.pools rows.now name.now }
{
    rows.iter().any(|row| row.names_pool(name))
}
