ghost use Rattle.std.specs.Prelude.{◌≡◌, Some, [], true, false, length, map, is_some, IfOk, IfSome, OnOk, OnErr};
ghost use Rattle.std.specs.Arc.{arc_value};
ghost use Rattle.std.specs.Option.{option_copied};
ghost use Rattle.af_policy.specs.Rows.{NamesAscend, digests_differ, found_user, has_digest, has_user, same_digest, user_names, with_user, without_user};
ghost use Rattle.af_policy.specs.Changes.{replaced};
ghost use Rattle.af_policy.specs.Identity.{digest_user};
ghost use Rattle.af_policy.specs.SharedRows.{Ascend, found, with_row, without};
ghost use Rattle.af_policy.specs.Shown.{page_rows, shown_user};
ghost use Rattle.af_policy.specs.Tables.{IsUserTable, digest_row, name_row, roles_of};

use crate::shared::Table;
use crate::user_rows::{ByDigest, ByName};
use crate::user_shown::each_shown;
use crate::{Page, Span, User, UserShown};
use af_names::{RoleName, UserName};
use std::alloc::{AllocError, Global};
use std::marker::Model;
use std::sync::Arc;

/// The users of a policy, found by name and by the digest of their token in steps that grow with the logarithm of their
/// number. A name leads to the digest, and the digest to the user. So the table of names stays shared where only roles change, which no
/// clause says. Tables of different versions share the users that they have in common. Contracts see it as the users' rows, in byte
/// order of their names.
pub(crate) struct UserTable {
    by_name: Table<ByName>,
    by_digest: Table<ByDigest>,
}

impl Drop for UserTable {
    fn drop(self) {
        let UserTable {
            by_name: _,
            by_digest: _,
        } = self;
    }
}

impl Model for UserTable {
    ghost use Rattle.std.specs.Prelude.{List};
    ghost use Rattle.af_policy.specs.Rows.{UserRow};
    ghost use Rattle.af_policy.specs.Tables.{IsNamedTable, users_at};

    ghost Value = { List UserRow };

    ghost view = { λ table. users_at table.by_digest table.by_name };

    ghost invariant = { λ table. IsNamedTable table.by_name table.by_digest };
}

impl UserTable {
    /// The table of these users, whose names ascend. `digests` has the same users in the order of their digests.
    pub(crate) fn of_rows(
        alloc: Global,
        users: &[ByDigest],
        digests: Vec<ByDigest>,
    ) -> Result<UserTable, AllocError>
        requires users { Ascend (λ user. user.name) users.now }
        requires digests { Ascend (λ user. user.digest) digests.items }
        requires table { IsUserTable users.now digests.items }
        ensures { IfOk result (λ table. table ≡ users.now) }
    {
        let names = each_named(alloc, users)?;
        let by_name = Table::of_rows(alloc, names)?;
        let by_digest = Table::of_rows(alloc, digests)?;
        Ok(UserTable { by_name, by_digest })
    }

    /// The table once more, which shares all users.
    pub(crate) fn copied(&self) -> Result<UserTable, AllocError>
        ensures { IfOk result (λ table. table ≡ self.now) }
    {
        Ok(UserTable {
            by_name: self.by_name.copied()?,
            by_digest: self.by_digest.copied()?,
        })
    }

    /// Adds a user whose name and digest are nobody's.
    pub(crate) fn insert(&mut self, alloc: Global, user: User) -> Result<(), AllocError>
        requires name { has_user self.old user.name ≡ false }
        requires digest { has_digest self.old user.digest ≡ false }
        ensures ok { OnOk result (self.new ≡ with_user self.old user) }
        ensures err { OnErr result (self.new ≡ self.old) }
    {
        let user = Arc::new(alloc, user)?;
        let other = Arc::try_clone(&user)?;
        let by_name = self.by_name.with(alloc, ByName::new(user))?;
        let by_digest = self.by_digest.with(alloc, ByDigest::new(other))?;
        *self = UserTable { by_name, by_digest };
        Ok(())
    }

    /// Puts a user in the place of this one, who has the same name, where the digest is nobody else's.
    pub(crate) fn replace(
        &mut self,
        alloc: Global,
        before: &User,
        user: User,
    ) -> Result<(), AllocError>
        requires found { found_user self.old user.name ≡ Some before.now }
        requires digest { has_digest (without_user self.old user.name) user.digest ≡ false }
        ensures ok { OnOk result (self.new ≡ replaced self.old user) }
        ensures err { OnErr result (self.new ≡ self.old) }
    {
        self.by_name.facts();
        let user = Arc::new(alloc, user)?;
        let digest = before.digest();
        let by_name = names_with(alloc, &self.by_name, &digest, &user)?;
        let by_digest = digests_with(alloc, &self.by_digest, &digest, ByDigest::new(user))?;
        *self = UserTable { by_name, by_digest };
        Ok(())
    }

    /// How many users there are.
    pub(crate) fn len(&self) -> usize
        ensures { result ≡ length self.now }
    {
        self.by_name.len()
    }

    /// Whether there is a user of that name.
    pub(crate) fn has(&self, name: &UserName) -> bool
        ensures { result ≡ has_user self.now name.now }
    {
        self.by_name.has(name.as_str().as_bytes())
    }

    /// Whether some user has that digest.
    pub(crate) fn has_digest(&self, digest: &[u8; 32]) -> bool
        ensures { result ≡ has_digest self.now digest.now }
    {
        self.name_of(digest).is_some()
    }

    /// The name of the user who has a digest.
    pub(crate) fn name_of(&self, digest: &[u8; 32]) -> Option<&UserName>
        ensures { option_copied result ≡ digest_user self.now digest.now }
    {
        match self.with_digest(digest) {
            Some(user) => Some(user.name()),
            None => None,
        }
    }

    /// The user who has a digest. That user's name finds the same user.
    pub(crate) fn with_digest(&self, digest: &[u8; 32]) -> Option<&User>
        ensures value { option_copied result ≡ digest_row self.now digest.now }
        ensures named { IfSome result (λ user. found_user self.now user.now.name ≡ Some user.now) }
        ensures ascend { NamesAscend (user_names self.now) }
    {
        self.facts();
        match self.by_digest.get(digest.as_slice()) {
            Some(row) => Some(row.user()),
            None => None,
        }
    }

    /// The user of a name.
    pub(crate) fn get(&self, name: &UserName) -> Option<&User>
        ensures { option_copied result ≡ found_user self.now name.now }
    {
        match self.by_name.get(name.as_str().as_bytes()) {
            Some(own) => self.with_digest(&own.digest()),
            None => None,
        }
    }

    /// The users of a span.
    pub(crate) fn page(&self, alloc: Global, span: Span) -> Result<Page<UserShown<'_>>, AllocError>
        ensures { IfOk result (λ page. page ≡ record { rows = map shown_user (page_rows span self.now); total = length self.now }) }
    {
        let front = self.by_name.front(alloc, span.end())?;
        let rows = each_shown(alloc, &self.by_digest, span.past(front.as_slice()))?;
        Ok(Page::new(rows, self.len()))
    }

    /// The table without the user of a name, if there is one.
    pub(crate) fn without(&self, alloc: Global, name: &UserName) -> Result<UserTable, AllocError>
        ensures { IfOk result (λ table. table ≡ without_user self.now name.now) }
    {
        self.by_name.facts();
        match self.by_name.get(name.as_str().as_bytes()) {
            Some(own) => {
                let digest = own.digest();
                let by_name = self.by_name.without(alloc, name.as_str().as_bytes())?;
                let by_digest = self.by_digest.without(alloc, digest.as_slice())?;
                Ok(UserTable { by_name, by_digest })
            }
            None => {
                let copy = self.copied()?;
                Ok(copy)
            }
        }
    }

    /// The roles of the user of a name.
    pub(crate) fn roles_of(&self, name: &UserName) -> Option<&[RoleName]>
        ensures value { option_copied result ≡ roles_of self.now name.now }
        ensures ascend { NamesAscend (user_names self.now) }
    {
        self.facts();
        match self.get(name) {
            Some(user) => Some(user.roles()),
            None => None,
        }
    }

    /// What holds of each table: names ascend, so no two users have one, and no two have one digest.
    pub(crate) fn facts(&self)
        ensures ascend { NamesAscend (user_names self.now) }
        ensures differ { digests_differ self.now ≡ true }
    {
        self.by_name.facts();
    }
}

/// The names, where a user who had this digest is replaced. Where the digest stays, the table is shared.
fn names_with(
    alloc: Global,
    names: &Table<ByName>,
    before: &[u8; 32],
    user: &Arc<User>,
) -> Result<Table<ByName>, AllocError>
    requires { found (λ own. own.name) names.now (arc_value user.now).name ≡ Some (record { name = (arc_value user.now).name; digest = before.now }) }
    ensures { IfOk result (λ made. made ≡ with_row (λ own. own.name) names.now (name_row (arc_value user.now))) }
{
    names.facts();
    if is_same(before, &user.digest()) {
        let same = names.copied()?;
        return Ok(same);
    }
    let other = Arc::try_clone(user)?;
    let made = names.with(alloc, ByName::new(other))?;
    Ok(made)
}

/// The users by digest, with another in the place of the one of a digest. Where the digest stays, so does the place.
fn digests_with(
    alloc: Global,
    digests: &Table<ByDigest>,
    before: &[u8; 32],
    row: ByDigest,
) -> Result<Table<ByDigest>, AllocError>
    requires { is_some (found (λ user. user.digest) digests.now before.now) ≡ true }
    ensures { IfOk result (λ made. made ≡ with_row (λ user. user.digest) (without (λ user. user.digest) digests.now before.now) row) }
{
    digests.facts();
    if is_same(before, &row.user().digest()) {
        let made = digests.replacing(alloc, row)?;
        return Ok(made);
    }
    let others = digests.without(alloc, before.as_slice())?;
    let made = others.with(alloc, row)?;
    Ok(made)
}

/// Whether two digests are the same.
fn is_same(one: &[u8; 32], other: &[u8; 32]) -> bool
    ensures { result ≡ same_digest one.now other.now }
{
    *one == *other
}

/// The names and digests of these users.
fn each_named(alloc: Global, users: &[ByDigest]) -> Result<Vec<ByName>, AllocError>
    ensures { IfOk result (λ names. names.items ≡ map name_row users.now) }
{
    let mut names = Vec::with_capacity(alloc, users.len())?;
    for user in users {
        names.push(user.by_name()?)?;
    }
    Ok(names)
}
