ghost use Rattle.std.specs.Prelude.{◌≡◌, map};
ghost use Rattle.af_ops.specs.Table.{segments_of, spelled};
ghost use Rattle.af_ops.specs.Segments.{seen};

use crate::paths::{CLEAR, DAG, DAGS, INSTANCE, INSTANCES, RUN, RUN_CLEAR, RUNS, TASKS, VERSION};
use crate::policy_paths::{BACKFILLS, ENTRIES, ME, ROLE, ROLES, SYNC, USER, USERS};
use crate::row_paths::{POOL, POOLS, VARIABLE, VARIABLES};
use crate::segment::Segment;

/// A path of the API as a template: its parts stand in braces. Operations of several methods may have one.
#[derive(Clone, Copy, Debug, PartialEq, Eq)]
pub enum PathTemplate {
    /// `/api/v1/version`
    Version,
    /// `/api/v1/dags`
    Dags,
    /// `/api/v1/dags/{dag_id}`
    Dag,
    /// `/api/v1/dags/{dag_id}/tasks`
    Tasks,
    /// `/api/v1/dags/{dag_id}/dagRuns`
    Runs,
    /// `/api/v1/dags/{dag_id}/dagRuns/{dag_run_id}`
    Run,
    /// `/api/v1/dags/{dag_id}/dagRuns/{dag_run_id}/clear`
    RunClear,
    /// `/api/v1/dags/{dag_id}/dagRuns/{dag_run_id}/taskInstances`
    Instances,
    /// `/api/v1/dags/{dag_id}/dagRuns/{dag_run_id}/taskInstances/{task_id}`
    Instance,
    /// `/api/v1/dags/{dag_id}/clearTaskInstances`
    Clear,
    /// `/api/v1/pools`
    Pools,
    /// `/api/v1/pools/{pool_name}`
    Pool,
    /// `/api/v1/variables`
    Variables,
    /// `/api/v1/variables/{variable_key}`
    Variable,
    /// `/api/v1/eventLogs`
    Entries,
    /// `/api/v1/roles`
    Roles,
    /// `/api/v1/roles/{role_name}`
    Role,
    /// `/api/v1/users`
    Users,
    /// `/api/v1/users/{username}`
    User,
    /// `/own/me`
    Me,
    /// `/own/dags/{dag_id}/sync`
    Sync,
    /// `/own/dags/{dag_id}/backfills`
    Backfills,
}

impl PathTemplate {
    /// Its text, with its parts in braces, as `matchit` spells them.
    pub fn text(self) -> &'static str
        ensures { result.now ≡ spelled (segments_of self) }
    {
        match self {
            PathTemplate::Version => "/api/v1/version",
            PathTemplate::Dags => "/api/v1/dags",
            PathTemplate::Dag => "/api/v1/dags/{dag_id}",
            PathTemplate::Tasks => "/api/v1/dags/{dag_id}/tasks",
            PathTemplate::Runs => "/api/v1/dags/{dag_id}/dagRuns",
            PathTemplate::Run => "/api/v1/dags/{dag_id}/dagRuns/{dag_run_id}",
            PathTemplate::RunClear => "/api/v1/dags/{dag_id}/dagRuns/{dag_run_id}/clear",
            PathTemplate::Instances => "/api/v1/dags/{dag_id}/dagRuns/{dag_run_id}/taskInstances",
            PathTemplate::Instance =>
                "/api/v1/dags/{dag_id}/dagRuns/{dag_run_id}/taskInstances/{task_id}",
            PathTemplate::Clear => "/api/v1/dags/{dag_id}/clearTaskInstances",
            PathTemplate::Pools => "/api/v1/pools",
            PathTemplate::Pool => "/api/v1/pools/{pool_name}",
            PathTemplate::Variables => "/api/v1/variables",
            PathTemplate::Variable => "/api/v1/variables/{variable_key}",
            PathTemplate::Entries => "/api/v1/eventLogs",
            PathTemplate::Roles => "/api/v1/roles",
            PathTemplate::Role => "/api/v1/roles/{role_name}",
            PathTemplate::Users => "/api/v1/users",
            PathTemplate::User => "/api/v1/users/{username}",
            PathTemplate::Me => "/own/me",
            PathTemplate::Sync => "/own/dags/{dag_id}/sync",
            PathTemplate::Backfills => "/own/dags/{dag_id}/backfills",
        }
    }

    /// What stands between its slashes.
    pub fn segments(self) -> &'static [Segment]
        ensures { map seen result.now ≡ segments_of self }
    {
        match self {
            PathTemplate::Version => &VERSION,
            PathTemplate::Dags => &DAGS,
            PathTemplate::Dag => &DAG,
            PathTemplate::Tasks => &TASKS,
            PathTemplate::Runs => &RUNS,
            PathTemplate::Run => &RUN,
            PathTemplate::RunClear => &RUN_CLEAR,
            PathTemplate::Instances => &INSTANCES,
            PathTemplate::Instance => &INSTANCE,
            PathTemplate::Clear => &CLEAR,
            PathTemplate::Pools => &POOLS,
            PathTemplate::Pool => &POOL,
            PathTemplate::Variables => &VARIABLES,
            PathTemplate::Variable => &VARIABLE,
            PathTemplate::Entries => &ENTRIES,
            PathTemplate::Roles => &ROLES,
            PathTemplate::Role => &ROLE,
            PathTemplate::Users => &USERS,
            PathTemplate::User => &USER,
            PathTemplate::Me => &ME,
            PathTemplate::Sync => &SYNC,
            PathTemplate::Backfills => &BACKFILLS,
        }
    }
}
