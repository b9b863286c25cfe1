//! How often the users of a policy that is put together name each role.
ghost use Rattle.std.specs.Prelude.{◌≡◌, ◌+◌, List, ℕ, [], true, cond, IfOk, OnOk};
ghost use Rattle.af_policy.specs.Rows.{same_name};
ghost use Rattle.af_policy.specs.Uses.{count_in, is_counted, mentions, uses_in};

use crate::user_rows::ByDigest;
use crate::uses::is_counted;
use af_names::RoleName;
use std::alloc::{AllocError, Global};
use std::collections::BTreeMap;

/// How often these users name each role that is counted.
pub(crate) fn mentions_of(
    alloc: Global,
    users: &[ByDigest],
) -> Result<BTreeMap<RoleName, usize>, AllocError>
    ensures { IfOk result (λ counts. (role : List ℕ) → is_counted role ≡ true → count_in counts role ≡ mentions users.now role) }
{
    let mut counts = BTreeMap::new(alloc);
    for user in users {
        add_each(alloc, &mut counts, user.user().roles())?;
    }
    Ok(counts)
}

/// Counts each of these names that is counted once more.
fn add_each(
    alloc: Global,
    counts: &mut BTreeMap<RoleName, usize>,
    names: &[RoleName],
) -> Result<(), AllocError>
    ensures { OnOk result ((other : List ℕ) → is_counted other ≡ true → count_in counts.new other ≡ count_in counts.old other + uses_in names.now other) }
{
    for name in names {
        add(alloc, counts, name)?;
    }
    Ok(())
}

/// Counts a name once more, if it is counted. More than a `usize` counts find no memory.
fn add(
    alloc: Global,
    counts: &mut BTreeMap<RoleName, usize>,
    name: &RoleName,
) -> Result<(), AllocError>
    ensures { OnOk result ((other : List ℕ) → is_counted other ≡ true → count_in counts.new other ≡ cond (same_name other name.now) (count_in counts.old other + 1) (count_in counts.old other)) }
{
    if !is_counted(name) {
        return Ok(());
    }
    match counts.get_mut(name) {
        Some(count) => {
            let Some(more) = count.checked_add(1) else {
                return Err(AllocError);
            };
            *count = more;
        }
        None => {
            counts.insert(name.copied(alloc)?, 1)?;
        }
    }
    Ok(())
}
