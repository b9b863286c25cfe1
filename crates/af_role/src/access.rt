ghost use Rattle.std.specs.Prelude.{◌≡◌, ◌||◌, List, ℕ, [], ◌∷◌, IfOk, OnOk};
ghost use Rattle.std.specs.Option.{option_copied};
ghost use Rattle.af_role.specs.declared.action.Action.{Action};
ghost use Rattle.af_role.specs.ActionSets.{has};
ghost use Rattle.af_role.specs.declared.dag_part.DagPart.{DagPart};
ghost use Rattle.af_role.specs.declared.dag_part.DagPart.TheVariants.{Itself, Runs};
ghost use Rattle.af_role.specs.Pairs.{on_part, with_pairs};
ghost use Rattle.af_role.specs.Roles.{contains_pair};
ghost use Rattle.af_role.specs.Access.{bad_action, bad_in_row, bad_text, is_part_action, listed_pairs, pair_at, pairs_at, row_pairs, texts_on};

use crate::{Action, Actions, DagPart, Pair, Permissions, Resource, Text, Texts};
use af_base::{Again, Items};
use af_names::{DagId, RoleName};
use std::alloc::{AllocError, Global};
use std::marker::Model;

/// A role, and the texts of the actions that it is to have on one DAG and on its runs.
#[derive(Drop)]
pub struct AccessRow {
    pub role: RoleName,
    pub actions: Texts,
    pub runs: Texts,
}

/// Which roles are to have which actions on one DAG and on its runs. Contracts see it as its rows, in the order in which they were given.
#[derive(Drop)]
pub struct AccessControl {
    rows: Items<AccessRow>,
}

impl Model for AccessControl {
    ghost use Rattle.std.specs.Prelude.{List};
    ghost use Rattle.af_role.specs.declared.access.AccessRow.{AccessRow};

    ghost Value = { List AccessRow };

    ghost view = { λ access. access.rows };
}

impl AccessControl {
    /// The access control of these rows. Where it is read from an object, they stand in byte order of the roles' names.
    pub fn new(rows: Vec<AccessRow>) -> AccessControl
        ensures { result ≡ rows.items }
    {
        AccessControl {
            rows: Items::of(rows),
        }
    }

    /// The rows.
    pub fn as_slice(&self) -> &[AccessRow]
        ensures { result.now ≡ self.now }
    {
        self.rows.as_slice()
    }

    /// The first text, in the order of the rows, that is no action on what it is listed for. In each row the actions on runs come first.
    pub fn bad_action(&self) -> Option<&Text>
        ensures { option_copied result ≡ bad_action self.now }
    {
        bad_in_rows(self.as_slice())
    }

    /// The actions on one DAG, or on its runs, that the rows for this role list, whichever DAG that is.
    pub fn actions_of(&self, part: DagPart, role: &RoleName) -> Actions
        ensures { (dag : List ℕ) (action : Action) → has result action ≡ contains_pair (listed_pairs dag self.now role.now) (on_part part action dag) }
    {
        let mut actions = Actions::none();
        for row in self.as_slice() {
            row.add_actions_to(&mut actions, part, role);
        }
        actions
    }

    /// The same rows again. `AllocError` only where a growth was refused.
    pub fn copied(&self, alloc: Global) -> Result<AccessControl, AllocError>
        ensures { IfOk result (λ access. access ≡ self.now) }
    {
        let rows = self.rows.copied(alloc)?;
        Ok(AccessControl { rows })
    }

    /// Adds the permissions on a DAG and on its runs that the rows of a role list.
    pub(crate) fn add_listed(
        &self,
        alloc: Global,
        permissions: &mut Permissions,
        dag: &DagId,
        role: &RoleName,
    ) -> Result<(), AllocError>
        ensures { OnOk result (permissions.new ≡ with_pairs permissions.old (listed_pairs dag.now self.now role.now)) }
    {
        add_rows(alloc, permissions, dag, role, self.as_slice())
    }
}

impl Again for AccessRow {
    fn copied(&self, alloc: Global) -> Result<AccessRow, AllocError> {
        let role = self.role.copied(alloc)?;
        let actions = self.actions.copied(alloc)?;
        let runs = self.runs.copied(alloc)?;
        Ok(AccessRow {
            role,
            actions,
            runs,
        })
    }
}

impl AccessRow {
    /// The texts of the actions on the DAG itself, or on its runs.
    fn on(&self, part: DagPart) -> &[Text]
        ensures { result.now ≡ texts_on part self.now }
    {
        match part {
            DagPart::Itself => self.actions.as_slice(),
            DagPart::Runs => self.runs.as_slice(),
        }
    }

    /// The first text that is no action on what it is listed for, of those on runs and then of the others.
    fn bad_action(&self) -> Option<&Text>
        ensures { option_copied result ≡ bad_in_row self.now }
    {
        match bad_text(DagPart::Runs, self.runs.as_slice()) {
            Some(text) => Some(text),
            None => bad_text(DagPart::Itself, self.actions.as_slice()),
        }
    }

    /// Adds the actions on the DAG itself, or on its runs, that the row lists, if it is for this role.
    fn add_actions_to(&self, actions: &mut Actions, part: DagPart, role: &RoleName)
        ensures { (dag : List ℕ) (action : Action) → has actions.new action ≡ (contains_pair (row_pairs dag role.now self.now) (on_part part action dag) || has actions.old action) }
    {
        if self.role == *role {
            add_texts(actions, part, self.on(part));
        }
    }

    /// Adds the permissions on a DAG and on its runs that the row lists for a role.
    fn add_to(
        &self,
        alloc: Global,
        permissions: &mut Permissions,
        dag: &DagId,
        role: &RoleName,
    ) -> Result<(), AllocError>
        ensures { OnOk result (permissions.new ≡ with_pairs permissions.old (row_pairs dag.now role.now self.now)) }
    {
        if self.role == *role {
            add_actions(
                alloc,
                permissions,
                DagPart::Itself,
                dag,
                self.actions.as_slice(),
            )?;
            add_actions(alloc, permissions, DagPart::Runs, dag, self.runs.as_slice())?;
        }
        Ok(())
    }
}

/// The first text that is no action on a DAG, or on its runs.
fn bad_text(part: DagPart, texts: &[Text]) -> Option<&Text>
    ensures { option_copied result ≡ bad_text part texts.now }
{
    texts.iter().find(|text| !is_part_action(part, text))
}

/// The first text of these rows that is no action on what it is listed for.
fn bad_in_rows(rows: &[AccessRow]) -> Option<&Text>
    ensures { option_copied result ≡ bad_action rows.now }
{
    for row in rows {
        if let Some(text) = row.bad_action() {
            return Some(text);
        }
    }
    None
}

/// Adds the actions that these texts name, of those that the DAG itself, or its runs, carry.
fn add_texts(actions: &mut Actions, part: DagPart, texts: &[Text])
    ensures { (dag : List ℕ) (action : Action) → has actions.new action ≡ (contains_pair (pairs_at part dag texts.now) (on_part part action dag) || has actions.old action) }
{
    for text in texts {
        add_text(actions, part, text);
    }
}

/// Adds the action that the text names, if the DAG itself, or its runs, carry it.
fn add_text(actions: &mut Actions, part: DagPart, text: &Text)
    ensures { (dag : List ℕ) (action : Action) → has actions.new action ≡ (contains_pair (pairs_at part dag (text.now ∷ [])) (on_part part action dag) || has actions.old action) }
{
    match Action::read(text.as_str()) {
        Some(action) if part.carries(action) => *actions = actions.with(action),
        _ => {}
    }
}

/// Adds the permissions on a DAG and on its runs that rows list for a role.
fn add_rows(
    alloc: Global,
    permissions: &mut Permissions,
    dag: &DagId,
    role: &RoleName,
    rows: &[AccessRow],
) -> Result<(), AllocError>
    ensures { OnOk result (permissions.new ≡ with_pairs permissions.old (listed_pairs dag.now rows.now role.now)) }
{
    for row in rows {
        row.add_to(alloc, permissions, dag, role)?;
    }
    Ok(())
}

/// Whether a text is an action that a single DAG, or its runs, carry.
fn is_part_action(part: DagPart, text: &Text) -> bool
    ensures { result ≡ is_part_action part text.now }
{
    match Action::read(text.as_str()) {
        Some(action) => part.carries(action),
        None => false,
    }
}

/// Adds the permissions of these actions on a DAG, or on its runs.
fn add_actions(
    alloc: Global,
    permissions: &mut Permissions,
    part: DagPart,
    dag: &DagId,
    texts: &[Text],
) -> Result<(), AllocError>
    ensures { OnOk result (permissions.new ≡ with_pairs permissions.old (pairs_at part dag.now texts.now)) }
{
    for text in texts {
        add_action(alloc, permissions, part, dag, text)?;
    }
    Ok(())
}

/// Adds the permission of an action on a DAG, or on its runs, if the text is such an action.
fn add_action(
    alloc: Global,
    permissions: &mut Permissions,
    part: DagPart,
    dag: &DagId,
    text: &Text,
) -> Result<(), AllocError>
    ensures { OnOk result (permissions.new ≡ with_pairs permissions.old (pairs_at part dag.now (text.now ∷ []))) }
{
    if let Some(pair) = pair_at(alloc, part, dag, text)? {
        permissions.add(pair)?;
    }
    Ok(())
}

/// The permission of an action on a DAG, or on its runs, if the text is such an action.
fn pair_at(
    alloc: Global,
    part: DagPart,
    dag: &DagId,
    text: &Text,
) -> Result<Option<Pair>, AllocError>
    ensures { IfOk result (λ pair. pair ≡ pair_at part dag.now text.now) }
{
    match Action::read(text.as_str()) {
        Some(action) => Ok(Pair::new(action, Resource::Dag(part, dag.copied(alloc)?))),
        None => Ok(None),
    }
}
