ghost use Rattle.std.specs.Prelude.{◌≡◌, ◌+◌, ◌-◌, [], List, ℕ, true, cond, IfOk, OnOk};
ghost use Rattle.std.specs.Option.{option_copied};
ghost use Rattle.af_policy.specs.Rows.{same_name};
ghost use Rattle.af_policy.specs.SharedRows.{Ascend, found};
ghost use Rattle.af_policy.specs.Uses.{count_at, count_in, is_counted, use_rows, uses_in};

use crate::shared::{Row, Table, front};
use af_names::RoleName;
use std::alloc::{AllocError, Global};
use std::collections::BTreeMap;
use std::marker::Model;
use std::sync::Arc;

/// How often the users of a policy name one role.
#[derive(Drop)]
struct RoleUse {
    front: u64,
    name: Arc<RoleName>,
    count: usize,
}

impl Model for RoleUse {
    ghost use Rattle.std.specs.Prelude.{◌≡◌};
    ghost use Rattle.std.specs.Arc.{arc_value};
    ghost use Rattle.af_policy.specs.Fronts.{front_of};
    ghost use Rattle.af_policy.specs.Uses.{UseRow};

    ghost Value = { UseRow };

    ghost view = { λ row. record { name = arc_value row.name; count = row.count } };

    ghost invariant = { λ row. row.front ≡ front_of (arc_value row.name) };
}

impl RoleUse {
    /// The role of a name, named so often.
    fn new(alloc: Global, name: RoleName, count: usize) -> Result<RoleUse, AllocError>
        ensures { IfOk result (λ row. row ≡ record { name = name; count = count }) }
    {
        let front = front(name.as_str().as_bytes());
        let name = Arc::new(alloc, name)?;
        Ok(RoleUse { front, name, count })
    }

    /// The same role, named so often. It shares the name.
    fn counted(&self, count: usize) -> Result<RoleUse, AllocError>
        ensures { IfOk result (λ row. row ≡ record { name = self.now.name; count = count }) }
    {
        let name = Arc::try_clone(&self.name)?;
        Ok(RoleUse {
            front: self.front,
            name,
            count,
        })
    }

    /// How often the role is named.
    fn count(&self) -> usize
        ensures { result ≡ self.now.count }
    {
        self.count
    }
}

impl Row for RoleUse {
    ghost key = { λ row. row.name };

    fn key(&self) -> &[u8] {
        self.name.as_str().as_bytes()
    }

    fn front(&self) -> u64 {
        self.front
    }

    fn copied(&self) -> Result<RoleUse, AllocError> {
        let name = Arc::try_clone(&self.name)?;
        Ok(RoleUse {
            front: self.front,
            name,
            count: self.count,
        })
    }
}

/// How often the users of a policy name each role, so that no change looks at all users. Of the default roles only Admin is counted, since
/// no default role is ever deleted. Contracts see it as rows of names and counts.
pub(crate) struct Uses {
    counts: Table<RoleUse>,
}

impl Drop for Uses {
    fn drop(self) {
        let Uses { counts: _ } = self;
    }
}

impl Model for Uses {
    ghost use Rattle.std.specs.Prelude.{List};
    ghost use Rattle.af_policy.specs.Uses.{UseRow};

    ghost Value = { List UseRow };

    ghost view = { λ uses. uses.counts };
}

impl Uses {
    /// The counts of a map.
    pub(crate) fn of_counts(
        alloc: Global,
        counts: BTreeMap<RoleName, usize>,
    ) -> Result<Uses, AllocError>
        ensures { IfOk result (λ uses. (role : List ℕ) → count_at uses role ≡ count_in counts role) }
    {
        let rows = use_rows(alloc, counts)?;
        let counts = Table::of_rows(alloc, rows)?;
        Ok(Uses { counts })
    }

    /// The counts once more, which are shared.
    pub(crate) fn copied(&self) -> Result<Uses, AllocError>
        ensures { IfOk result (λ uses. uses ≡ self.now) }
    {
        let counts = self.counts.copied()?;
        Ok(Uses { counts })
    }

    /// How often a role is named.
    pub(crate) fn count(&self, name: &str) -> usize
        ensures { result ≡ count_at self.now name.now }
    {
        match self.counts.get(name.as_bytes()) {
            Some(row) => row.count(),
            None => 0,
        }
    }

    /// Counts a role once more, if it is counted. After an error the counts are not to be used.
    fn add(&mut self, alloc: Global, name: &RoleName) -> Result<(), AllocError>
        ensures { OnOk result ((other : List ℕ) → is_counted other ≡ true → count_at self.new other ≡ cond (same_name other name.now) (count_at self.old other + 1) (count_at self.old other)) }
    {
        if !is_counted(name) {
            return Ok(());
        }
        match self.counts.get(name.as_str().as_bytes()) {
            Some(row) => {
                let Some(count) = row.count().checked_add(1) else {
                    return Err(AllocError);
                };
                let more = row.counted(count)?;
                self.counts.replace(alloc, more)?;
            }
            None => {
                let first = RoleUse::new(alloc, name.copied(alloc)?, 1)?;
                self.counts.put(alloc, first)?;
            }
        }
        Ok(())
    }

    /// Counts a role once less, if it is counted. After an error the counts are not to be used.
    fn take(&mut self, alloc: Global, name: &RoleName) -> Result<(), AllocError>
        ensures { OnOk result ((other : List ℕ) → is_counted other ≡ true → count_at self.new other ≡ cond (same_name other name.now) (count_at self.old other - 1) (count_at self.old other)) }
    {
        if !is_counted(name) {
            return Ok(());
        }
        match self.counts.get(name.as_str().as_bytes()) {
            Some(row) => {
                let count = row.count();
                if count < 2 {
                    self.counts.remove(alloc, name.as_str().as_bytes())?;
                } else {
                    let less = row.counted(count - 1)?;
                    self.counts.replace(alloc, less)?;
                }
            }
            None => {}
        }
        Ok(())
    }

    /// Counts each of these names that is counted once more. After an error the counts are not to be used.
    pub(crate) fn add_all(&mut self, alloc: Global, names: &[RoleName]) -> Result<(), AllocError>
        ensures { OnOk result ((other : List ℕ) → is_counted other ≡ true → count_at self.new other ≡ count_at self.old other + uses_in names.now other) }
    {
        for name in names {
            self.add(alloc, name)?;
        }
        Ok(())
    }

    /// Counts each of these names that is counted once less. After an error the counts are not to be used.
    pub(crate) fn take_all(&mut self, alloc: Global, names: &[RoleName]) -> Result<(), AllocError>
        ensures { OnOk result ((other : List ℕ) → is_counted other ≡ true → count_at self.new other ≡ count_at self.old other - uses_in names.now other) }
    {
        for name in names {
            self.take(alloc, name)?;
        }
        Ok(())
    }
}

/// Whether it is counted how often users name a role.
pub(crate) fn is_counted(name: &RoleName) -> bool
    ensures { result ≡ is_counted name.now }
{
    let name = name.as_str();
    !(name == "Public" || name == "Viewer" || name == "User" || name == "Op")
}

/// The rows of a map of counts, in the order of their names.
fn use_rows(alloc: Global, counts: BTreeMap<RoleName, usize>) -> Result<Vec<RoleUse>, AllocError>
    ensures rows { IfOk result (λ rows. rows.items ≡ use_rows counts.entries) }
    ensures ascend { IfOk result (λ rows. Ascend (λ row. row.name) rows.items) }
{
    let mut rows = Vec::with_capacity(alloc, counts.len())?;
    for (name, count) in counts {
        rows.push(RoleUse::new(alloc, name, count)?)?;
    }
    Ok(rows)
}
