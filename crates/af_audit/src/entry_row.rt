// Entries as rows of event logs: which a reader is shown, and how they are told.
ghost use Rattle.std.specs.Prelude.{◌≡◌, ◌∷◌, [], OnOk, IfOk, codes, false, true};
ghost use Rattle.std.specs.Option.{option_copied};
ghost use Rattle.serde_json.specs.Data.{string};
ghost use Rattle.af_listing.specs.Pages.{page_of, shows};
ghost use Rattle.af_ops.specs.Texts.{Adds};
ghost use Rattle.af_audit.specs.Logs.{act_dag, entry_fields, entry_run, name_data, owner_of};

use crate::actor::Actor;
use crate::entry::Entry;
use crate::run_name::{RunName, made_text};
use af_listing::{Listed, Page, Window, page};
use af_names::{DagId, TaskId};
use af_ops::{Row, Text};
use af_policy::Reader;
use std::alloc::{AllocError, Global};

impl Listed for Entry {
    ghost use Rattle.std.specs.Prelude.{false};
    ghost use Rattle.af_audit.specs.Logs.{act_dag};

    ghost named = { λ entry. act_dag entry.act };

    ghost of_run = { λ entry. false };

    fn dag(&self) -> Option<&DagId> {
        self.act.dag()
    }

    /// An entry is shown by its DAG alone, whatever the act.
    fn of_run(&self) -> bool {
        false
    }

    fn has_runs() -> bool {
        false
    }
}

/// The page of event logs that a reader is shown: the entries of a DAG that is not read are cut, and those that name none are
/// shown. `AllocError` only where a growth was refused.
pub fn entries_page<R: Reader>(
    alloc: Global,
    entries: &[Entry],
    reader: &R,
    window: Window,
) -> Result<Page, AllocError>
    ensures { IfOk result (λ page. page ≡ page_of (shows (R.reads reader.now).dags (λ entry. act_dag entry.act)) window entries.now) }
{
    page(alloc, entries, reader, window)
}

impl Row for Entry {
    ghost use Rattle.af_audit.specs.Logs.{entry_fields};

    ghost fields = { entry_fields };

    fn put_fields(&self, alloc: Global, out: &mut Text) -> Result<(), AllocError> {
        put_entry(alloc, out, self)
    }
}

/// Appends the members of an entry's row.
fn put_entry(alloc: Global, out: &mut Text, entry: &Entry) -> Result<(), AllocError>
    ensures { OnOk result (Adds false out.old out.new (entry_fields entry.now)) }
{
    put_dag(out, entry.act.dag())?;
    out.plain(true, "event", entry.act.event())?;
    out.number(true, "event_log_id", u64::from(entry.seq))?;
    put_owner(alloc, out, &entry.actor)?;
    out.number(true, "policy_version", u64::from(entry.version))?;
    put_run(alloc, out, entry)?;
    put_task(out, entry.act.task())?;
    out.instant(true, "when", Some(entry.moment))?;
    Ok(())
}

/// The id of a DAG, or null for none.
fn put_dag(out: &mut Text, dag: Option<&DagId>) -> Result<(), AllocError>
    ensures { OnOk result (Adds false out.old out.new ((codes "dag_id", name_data (option_copied dag.entry)) ∷ [])) }
{
    match dag {
        None => out.null(false, "dag_id"),
        Some(dag_id) => out.dag_id(false, "dag_id", dag_id),
    }
}

/// The id of a task, or null for none.
fn put_task(out: &mut Text, task: Option<&TaskId>) -> Result<(), AllocError>
    ensures { OnOk result (Adds true out.old out.new ((codes "task_id", name_data (option_copied task.entry)) ∷ [])) }
{
    match task {
        None => out.null(true, "task_id"),
        Some(task_id) => out.task_id(true, "task_id", task_id),
    }
}

/// The id of the run that an entry names, or null for none.
fn put_run(alloc: Global, out: &mut Text, entry: &Entry) -> Result<(), AllocError>
    ensures { OnOk result (Adds true out.old out.new ((codes "run_id", name_data (entry_run entry.now)) ∷ [])) }
{
    match entry.run() {
        None => out.null(true, "run_id"),
        Some(RunName::Given(run_id)) => out.run_id(true, "run_id", run_id),
        Some(RunName::Made(date)) => out.text(alloc, true, "run_id", made_text(date).as_str()),
    }
}

/// Who is named as the owner. The name of a user may have bytes that want an escape.
fn put_owner(alloc: Global, out: &mut Text, actor: &Actor) -> Result<(), AllocError>
    ensures { OnOk result (Adds true out.old out.new ((codes "owner", string (owner_of actor.now)) ∷ [])) }
{
    match actor {
        Actor::User(name) => out.text(alloc, true, "owner", name.as_str()),
        Actor::Scheduler => out.plain(true, "owner", "scheduler"),
        Actor::Executor => out.plain(true, "owner", "executor"),
    }
}
