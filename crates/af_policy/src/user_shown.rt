ghost use Rattle.std.specs.Prelude.{◌≡◌, ◌≤◌, ◌++◌, true, count_by, is_some, length, map, IfOk, OnOk};
ghost use Rattle.std.specs.List.{AllByRecursion};
ghost use Rattle.std.specs.Cmp.Lexicographic.{slice_cmp};
ghost use Rattle.std.specs.Ordering.{is_lt, nat_cmp};
ghost use Rattle.af_policy.specs.SharedRows.{seen};
ghost use Rattle.af_policy.specs.Shown.{in_order, shown_user, with_name};
ghost use Rattle.af_policy.specs.Tables.{digest_row, user_at, users_at};

use crate::User;
use crate::shared::Table;
use crate::user_rows::{ByDigest, ByName};
use af_names::{RoleName, UserName};
use std::alloc::{AllocError, Global};
use std::marker::Model;

/// A user as others see it: the name, and the names of the roles in byte order, each as often as the user has it. Contracts
/// see it as that row, which has no digest.
#[derive(Drop)]
pub struct UserShown<'a> {
    name: &'a UserName,
    roles: Vec<&'a RoleName>,
}

impl<'a> Model for UserShown<'a> {
    ghost use Rattle.af_policy.specs.SharedRows.{seen};
    ghost use Rattle.af_policy.specs.Shown.{ShownRow};

    ghost Value = { ShownRow };

    ghost view = { λ user. record { name = user.name.now; roles = seen user.roles.items } };
}

impl<'a> UserShown<'a> {
    /// A user as it is shown.
    pub(crate) fn new(alloc: Global, user: &'a User) -> Result<UserShown<'a>, AllocError>
        ensures { IfOk result (λ shown. shown ≡ shown_user user.now) }
    {
        let name = user.name();
        let roles = in_order(alloc, user.roles())?;
        Ok(UserShown { name, roles })
    }

    /// The user's name.
    pub fn name(&self) -> &'a UserName
        ensures { result.now ≡ self.now.name }
    {
        self.name
    }

    /// The names of the user's roles, in byte order.
    pub fn roles(&self) -> &[&'a RoleName]
        ensures { seen result.now ≡ self.now.roles }
    {
        self.roles.as_slice()
    }
}

/// Names in byte order, each as often as it is given.
fn in_order<'a>(alloc: Global, names: &'a [RoleName]) -> Result<Vec<&'a RoleName>, AllocError>
    ensures { IfOk result (λ order. seen order.items ≡ in_order names.now) }
{
    let mut order = Vec::with_capacity(alloc, names.len())?;
    for name in names {
        put_name(&mut order, name)?;
    }
    Ok(order)
}

/// Puts a name at its place among names in byte order.
#[tactic(auto, using(crate::proofs::ShownLemmas::seen_insert))]
fn put_name<'a>(order: &mut Vec<&'a RoleName>, name: &'a RoleName) -> Result<(), AllocError>
    ensures { OnOk result (seen order.new.items ≡ with_name (seen order.old.items) name.now) }
{
    let place = place_of(order.as_slice(), name);
    order.insert(place, name)?;
    Ok(())
}

/// How many of these names are below one.
fn place_of(order: &[&RoleName], name: &RoleName) -> usize
    ensures place { result ≡ count_by (λ own. is_lt (slice_cmp nat_cmp own name.now)) (seen order.now) }
    ensures within { result ≤ length order.now }
{
    order.iter().filter(|own| is_below(own, name)).count()
}

/// Whether a name is below another in byte order.
fn is_below(own: &RoleName, name: &RoleName) -> bool
    ensures { result ≡ is_lt (slice_cmp nat_cmp own.now name.now) }
{
    own.cmp(name).is_lt()
}

/// The users to whom these names lead, as they are shown.
pub(crate) fn each_shown<'a>(
    alloc: Global,
    index: &'a Table<ByDigest>,
    names: &[&ByName],
) -> Result<Vec<UserShown<'a>>, AllocError>
    requires { AllByRecursion (λ own. is_some (digest_row index.now own.digest) ≡ true) (seen names.now) }
    ensures { IfOk result (λ shown. shown.items ≡ map shown_user (users_at index.now (seen names.now))) }
{
    let mut shown = Vec::with_capacity(alloc, names.len())?;
    show_each(alloc, index, names, &mut shown)?;
    Ok(shown)
}

/// Shows the users to whom these names lead behind others.
fn show_each<'a>(
    alloc: Global,
    index: &'a Table<ByDigest>,
    names: &[&ByName],
    shown: &mut Vec<UserShown<'a>>,
) -> Result<(), AllocError>
    requires { AllByRecursion (λ own. is_some (digest_row index.now own.digest) ≡ true) (seen names.now) }
    ensures { OnOk result (shown.new.items ≡ shown.old.items ++ map shown_user (users_at index.now (seen names.now))) }
{
    match names.split_first() {
        Some((own, others)) => {
            shown.push(shown_at(alloc, index, own)?)?;
            show_each(alloc, index, others, shown)
        }
        None => Ok(()),
    }
}

/// The user to whom a name leads, as it is shown.
fn shown_at<'a>(
    alloc: Global,
    index: &'a Table<ByDigest>,
    own: &ByName,
) -> Result<UserShown<'a>, AllocError>
    requires { is_some (digest_row index.now own.now.digest) ≡ true }
    ensures { IfOk result (λ shown. shown ≡ shown_user (user_at index.now own.now)) }
{
    match index.get(own.digest().as_slice()) {
        Some(row) => {
            let shown = UserShown::new(alloc, row.user())?;
            Ok(shown)
        }
        None => unreachable!(),
    }
}
