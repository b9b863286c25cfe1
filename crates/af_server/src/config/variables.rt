// The variables of the configuration: each has a `key` and a `value`.
ghost use Rattle.std.specs.Prelude.{◌≡◌, [], map, IfErr, IfOk, OnOk};
ghost use Rattle.af_base.specs.JsonValue.{view};
ghost use Rattle.af_base.specs.Readings.{OrMemory, Makes, taking};
ghost use Rattle.af_vars.specs.Variables.{with_variable};
ghost use Rattle.af_server.specs.declared.reason.Reason.{Reason};
ghost use Rattle.af_server.specs.VariableRows.{placed_variable, rows_of, variable_in, variable_taken, with_variables};

use super::draft::StateDraft;
use crate::members::{name, text};
use crate::reason::Reason;
use af_base::Json;
use af_names::VarKey;
use af_vars::{MOST_VARIABLES, VarText, Variable};
use std::alloc::Global;
use std::collections::BTreeMap;
use std::marker::Model;

/// Variables that were read, and the draft that they are yet to be added to, which has none: they are put in order by key, so that each is
/// added behind those before it. Contracts see it as the draft with these variables.
#[derive(Drop)]
struct Pending {
    draft: StateDraft,
    found: BTreeMap<VarKey, VarText>,
}

impl Model for Pending {
    ghost use Rattle.std.specs.Prelude.{◌≡◌, []};
    ghost use Rattle.af_server.specs.Drafts.{Draft};
    ghost use Rattle.af_server.specs.VariableRows.{rows_of, with_variables};

    ghost Value = { Draft };

    ghost view = { λ pending. with_variables pending.draft (rows_of pending.found.entries) };

    ghost invariant = { λ pending. pending.draft.state.variables ≡ [] };
}

impl Pending {
    /// No variable yet.
    fn of(alloc: Global, draft: StateDraft) -> Pending
        requires { draft.state.variables ≡ [] }
        ensures { result ≡ draft }
    {
        Pending {
            draft,
            found: BTreeMap::new(alloc),
        }
    }

    /// Takes the variables of the rows.
    fn add_all(&mut self, alloc: Global, rows: &[Json<'_>]) -> Result<(), Reason>
        ensures { Makes Reason.Memory (taking variable_taken self.old (map view rows.now)) self.new result }
    {
        for row in rows {
            self.add(alloc, row)?;
        }
        Ok(())
    }

    /// Takes the variable of a row.
    fn add(&mut self, alloc: Global, row: &Json<'_>) -> Result<(), Reason>
        ensures { Makes Reason.Memory (variable_taken self.old (view row.now)) self.new result }
    {
        let variable = read_variable(alloc, row)?;
        self.place(variable)
    }

    fn place(&mut self, variable: Variable) -> Result<(), Reason>
        ensures { Makes Reason.Memory (placed_variable self.old variable) self.new result }
    {
        if self.found.contains_key(&variable.key) {
            return Err(Reason::Duplicate);
        }
        if self.found.len() >= MOST_VARIABLES {
            return Err(Reason::Limit);
        }
        let Variable { key, value } = variable;
        self.found.insert(key, value)?;
        Ok(())
    }

    /// The draft with these variables.
    fn finish(self) -> Result<StateDraft, Reason>
        ensures ok { IfOk result (λ draft. draft ≡ self) }
        ensures err { IfErr result (λ reason. reason ≡ Reason.Memory) }
    {
        let Pending { mut draft, found } = self;
        let told = add_in_order(&mut draft, found);
        draft.unless_refused(told)
    }
}

/// Adds these variables, which are in order by key, to a draft that has none.
fn add_in_order(draft: &mut StateDraft, found: BTreeMap<VarKey, VarText>) -> Result<(), Reason>
    requires { draft.old.state.variables ≡ [] }
    ensures ok { OnOk result (draft.new ≡ with_variables draft.old (rows_of found.entries)) }
    ensures err { IfErr result (λ reason. reason ≡ Reason.Memory) }
{
    let _ordered = found.len();
    for (key, value) in found {
        add_new(draft, Variable { key, value })?;
    }
    Ok(())
}

/// Adds a variable of a key that no variable has, where they are few: so memory alone can be wanted.
fn add_new(draft: &mut StateDraft, variable: Variable) -> Result<(), Reason>
    ensures ok { OnOk result (draft.new ≡ with_variables draft.old (with_variable draft.old.state.variables variable)) }
    ensures err { IfErr result (λ reason. reason ≡ Reason.Memory) }
{
    match draft.state.add_variable(variable) {
        Ok(()) => Ok(()),
        Err(_) => Err(Reason::Memory),
    }
}

/// Adds the variables of the rows.
pub fn add_variables(
    alloc: Global,
    draft: StateDraft,
    rows: &[Json<'_>],
) -> Result<StateDraft, Reason>
    ensures { OrMemory Reason.Memory (taking variable_taken draft (map view rows.now)) result }
{
    if draft.state.variables().is_empty() {
        add_first(alloc, draft, rows)
    } else {
        add_more(alloc, draft, rows)
    }
}

/// Adds the variables of the rows to a draft that has none: an insertion among others would move all behind it.
fn add_first(alloc: Global, draft: StateDraft, rows: &[Json<'_>]) -> Result<StateDraft, Reason>
    requires { draft.state.variables ≡ [] }
    ensures { OrMemory Reason.Memory (taking variable_taken draft (map view rows.now)) result }
{
    let mut pending = Pending::of(alloc, draft);
    match pending.add_all(alloc, rows) {
        Ok(()) => pending.finish(),
        Err(reason) => {
            drop(pending);
            Err(reason)
        }
    }
}

/// Adds the variables of the rows to others, one after another.
fn add_more(alloc: Global, draft: StateDraft, rows: &[Json<'_>]) -> Result<StateDraft, Reason>
    ensures { OrMemory Reason.Memory (taking variable_taken draft (map view rows.now)) result }
{
    let mut draft = draft;
    let told = add_each(alloc, &mut draft, rows);
    draft.unless_refused(told)
}

/// Adds the variables of the rows, in place.
fn add_each(alloc: Global, draft: &mut StateDraft, rows: &[Json<'_>]) -> Result<(), Reason>
    ensures { Makes Reason.Memory (taking variable_taken draft.old (map view rows.now)) draft.new result }
{
    for row in rows {
        add_variable(alloc, draft, row)?;
    }
    Ok(())
}

/// Adds the variable of a row.
fn add_variable(alloc: Global, draft: &mut StateDraft, row: &Json<'_>) -> Result<(), Reason>
    ensures { Makes Reason.Memory (variable_taken draft.old (view row.now)) draft.new result }
{
    let variable = read_variable(alloc, row)?;
    draft.state.add_variable(variable)?;
    Ok(())
}

/// Reads a variable.
fn read_variable(alloc: Global, row: &Json<'_>) -> Result<Variable, Reason>
    ensures { OrMemory Reason.Memory (variable_in (view row.now)) result }
{
    let key = name(alloc, row, "key")?;
    let value = String::from_str(alloc, text(row, "value")?)?;
    Ok(Variable {
        key,
        value: VarText::of(value),
    })
}
