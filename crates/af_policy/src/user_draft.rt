ghost use Rattle.std.specs.Prelude.{◌≡◌, ◌||◌, List, ℕ, [], true, false, not, is_some, length, IfOk, OnErr};
ghost use Rattle.std.specs.Arc.{arc_value};
ghost use Rattle.std.specs.Ordering.{nat_cmp};
ghost use Rattle.std.specs.Cmp.Lexicographic.{slice_cmp};
ghost use Rattle.std.specs.BTreeMap.{IsOrdered, get, insert_entry, values};
ghost use Rattle.af_policy.specs.Rows.{has_admin, has_digest, has_user, with_user};
ghost use Rattle.af_policy.specs.Uses.{count_at, is_counted, mentions};

use crate::User;
use crate::fronted::Fronted;
use crate::mentions::mentions_of;
use crate::shared::Row;
use crate::user_rows::ByDigest;
use crate::user_table::UserTable;
use crate::uses::Uses;
use std::alloc::{AllocError, Global};
use std::collections::BTreeMap;
use std::collections::btree_map::Entry;
use std::marker::Model;
use std::sync::Arc;

/// The users of a policy that is put together. No older version shares them, so each is added in place; at the end they
/// become a table, which looks at each once. Contracts see it as the users' rows, in byte order of their names.
pub(crate) struct UserDraft {
    by_name: BTreeMap<Fronted<Arc<User>>, ByDigest>,
    by_digest: BTreeMap<Fronted<[u8; 32]>, ByDigest>,
}

impl Drop for UserDraft {
    fn drop(self) {
        let UserDraft {
            by_name: _,
            by_digest: _,
        } = self;
    }
}

impl Model for UserDraft {
    ghost use Rattle.std.specs.Prelude.{List};
    ghost use Rattle.std.specs.BTreeMap.{values};
    ghost use Rattle.af_policy.specs.Rows.{UserRow};
    ghost use Rattle.af_policy.specs.Tables.{IsUserDraft};

    ghost Value = { List UserRow };

    ghost view = { λ draft. values draft.by_name };

    ghost invariant = { λ draft. IsUserDraft draft.by_name.entries draft.by_digest.entries };
}

impl UserDraft {
    /// No user.
    pub(crate) fn new(alloc: Global) -> UserDraft
        ensures { result ≡ [] }
    {
        UserDraft {
            by_name: BTreeMap::new(alloc),
            by_digest: BTreeMap::new(alloc),
        }
    }

    /// Adds a user unless the name or the digest is taken, and tells whether it did.
    pub(crate) fn insert(&mut self, user: &Arc<User>) -> Result<bool, AllocError>
        ensures is_new { IfOk result (λ is_new. is_new ≡ not (has_user self.old (arc_value user.now).name || has_digest self.old (arc_value user.now).digest)) }
        ensures added { IfOk result (λ is_new. is_new ≡ true → self.new ≡ with_user self.old (arc_value user.now)) }
        ensures taken { IfOk result (λ is_new. is_new ≡ false → self.new ≡ self.old) }
        ensures err { OnErr result (self.new ≡ self.old) }
    {
        let key = Fronted::name_of(Arc::try_clone(user)?);
        let named = Arc::try_clone(user)?;
        let digested = Arc::try_clone(user)?;
        if !put_digest(
            &mut self.by_digest,
            user.digest_key(),
            ByDigest::new(digested),
        )? {
            return Ok(false);
        }
        match put_name(&mut self.by_name, key, ByDigest::new(named)) {
            Ok(true) => Ok(true),
            Ok(false) => {
                self.by_digest.remove(&user.digest_key());
                Ok(false)
            }
            Err(_) => {
                self.by_digest.remove(&user.digest_key());
                Err(AllocError)
            }
        }
    }

    /// How many users there are.
    pub(crate) fn len(&self) -> usize
        ensures { result ≡ length self.now }
    {
        self.by_name.len()
    }

    /// Whether there is a user of the name of this one. It looks at each.
    pub(crate) fn has_name_of(&self, user: &User) -> bool
        ensures { result ≡ has_user self.now user.now.name }
    {
        self.by_name
            .values()
            .any(|row| user.name().as_str() == row.user().name().as_str())
    }

    /// Whether some user has the digest of this one.
    pub(crate) fn has_digest_of(&self, user: &User) -> bool
        ensures { result ≡ has_digest self.now user.now.digest }
    {
        self.by_digest.contains_key(user.fronted_digest())
    }

    /// Whether some user has the role Admin.
    pub(crate) fn has_admin(&self) -> bool
        ensures { result ≡ has_admin self.now }
    {
        self.by_name.values().any(|row| row.user().is_admin())
    }

    /// The table of these users, and how often they name each role.
    pub(crate) fn finish(self, alloc: Global) -> Result<(UserTable, Uses), AllocError>
        ensures table { IfOk result (λ made. made.0 ≡ self) }
        ensures uses { IfOk result (λ made. (role : List ℕ) → is_counted role ≡ true → count_at made.1 role ≡ mentions self role) }
    {
        let UserDraft { by_name, by_digest } = self;
        let users = in_order(alloc, by_name)?;
        let digests = in_order(alloc, by_digest)?;
        let counts = mentions_of(alloc, users.as_slice())?;
        let uses = Uses::of_counts(alloc, counts)?;
        let table = UserTable::of_rows(alloc, users.as_slice(), digests)?;
        Ok((table, uses))
    }
}

/// Puts a user at a name where it is new, and tells whether it was.
fn put_name(
    map: &mut BTreeMap<Fronted<Arc<User>>, ByDigest>,
    key: Fronted<Arc<User>>,
    user: ByDigest,
) -> Result<bool, AllocError>
    ensures is_new { IfOk result (λ is_new. is_new ≡ not (is_some (get (slice_cmp nat_cmp) map.old key))) }
    ensures put { IfOk result (λ is_new. is_new ≡ true → map.new.entries ≡ insert_entry (slice_cmp nat_cmp) map.old.entries key user) }
    ensures taken { IfOk result (λ is_new. is_new ≡ false → map.new.entries ≡ map.old.entries) }
    ensures err { OnErr result (map.new.entries ≡ map.old.entries) }
{
    let Entry::Vacant(entry) = map.entry(key)? else {
        return Ok(false);
    };
    entry.insert(user);
    Ok(true)
}

/// Puts a user at a digest where it is new, and tells whether it was.
fn put_digest(
    map: &mut BTreeMap<Fronted<[u8; 32]>, ByDigest>,
    key: Fronted<[u8; 32]>,
    user: ByDigest,
) -> Result<bool, AllocError>
    ensures is_new { IfOk result (λ is_new. is_new ≡ not (is_some (get (slice_cmp nat_cmp) map.old key))) }
    ensures put { IfOk result (λ is_new. is_new ≡ true → map.new.entries ≡ insert_entry (slice_cmp nat_cmp) map.old.entries key user) }
    ensures taken { IfOk result (λ is_new. is_new ≡ false → map.new.entries ≡ map.old.entries) }
    ensures err { OnErr result (map.new.entries ≡ map.old.entries) }
{
    let Entry::Vacant(entry) = map.entry(key)? else {
        return Ok(false);
    };
    entry.insert(user);
    Ok(true)
}

/// The rows of a map, in the order of their keys.
fn in_order<K: Ord + Drop, T: Row>(alloc: Global, map: BTreeMap<K, T>) -> Result<Vec<T>, AllocError>
    ensures rows { IfOk result (λ rows. rows.items ≡ values map) }
    ensures ascend { IsOrdered K.cmp map }
{
    let _len = map.len();
    let rows = map.into_values().collect(alloc)?;
    Ok(rows)
}
