ghost use Rattle.std.specs.Prelude.{◌≡◌};
ghost use Rattle.af_ops.specs.Required.{needs_for};
ghost use Rattle.af_ops.specs.Table.{endpoint_at, has_method, is_route, methods_at, needs_of, needing, opened, reads_only, route_of};

use crate::endpoint::Endpoint;
use crate::method::Method;
use crate::methods::Methods;
use crate::op::Op;
use crate::path_template::PathTemplate;
use crate::policy_requirements::{
    CREATE_ROLE, CREATE_USER, DELETE_ROLE, DELETE_USER, EDIT_ROLE, EDIT_USER, READ_ENTRY,
    READ_ROLE, READ_USER,
};
use crate::requirements::{
    CLEAR_INSTANCE, CREATE_RUN, DELETE_RUN, EDIT_DAG, EDIT_RUN, READ_DAG, READ_INSTANCE, READ_RUN,
    READ_SOME_DAG, READ_SOME_RUN, READ_TASK,
};
use crate::route::Route;
use crate::row_requirements::{
    CREATE_POOL, CREATE_VARIABLE, DELETE_POOL, DELETE_VARIABLE, EDIT_POOL, EDIT_VARIABLE,
    READ_POOL, READ_VARIABLE,
};
use af_role::Need;

/// All operations.
pub const ENDPOINTS: [Endpoint; 38] = [
    Endpoint::Version,
    Endpoint::ListDags,
    Endpoint::GetDag,
    Endpoint::PauseDag,
    Endpoint::ListTasks,
    Endpoint::ListRuns,
    Endpoint::TriggerRun,
    Endpoint::GetRun,
    Endpoint::MarkRun,
    Endpoint::DeleteRun,
    Endpoint::ClearRun,
    Endpoint::ListInstances,
    Endpoint::GetInstance,
    Endpoint::ClearInstances,
    Endpoint::ListPools,
    Endpoint::AddPool,
    Endpoint::GetPool,
    Endpoint::ChangePool,
    Endpoint::DeletePool,
    Endpoint::ListVariables,
    Endpoint::AddVariable,
    Endpoint::GetVariable,
    Endpoint::ChangeVariable,
    Endpoint::DeleteVariable,
    Endpoint::ListEntries,
    Endpoint::ListRoles,
    Endpoint::AddRole,
    Endpoint::GetRole,
    Endpoint::ChangeRole,
    Endpoint::DeleteRole,
    Endpoint::ListUsers,
    Endpoint::AddUser,
    Endpoint::GetUser,
    Endpoint::ChangeUser,
    Endpoint::DeleteUser,
    Endpoint::GetMe,
    Endpoint::SyncDag,
    Endpoint::BackfillDag,
];

/// All templates of paths.
pub const PATH_TEMPLATES: [PathTemplate; 22] = [
    PathTemplate::Version,
    PathTemplate::Dags,
    PathTemplate::Dag,
    PathTemplate::Tasks,
    PathTemplate::Runs,
    PathTemplate::Run,
    PathTemplate::RunClear,
    PathTemplate::Instances,
    PathTemplate::Instance,
    PathTemplate::Clear,
    PathTemplate::Pools,
    PathTemplate::Pool,
    PathTemplate::Variables,
    PathTemplate::Variable,
    PathTemplate::Entries,
    PathTemplate::Roles,
    PathTemplate::Role,
    PathTemplate::Users,
    PathTemplate::User,
    PathTemplate::Me,
    PathTemplate::Sync,
    PathTemplate::Backfills,
];

/// The row of an operation.
pub fn route_of(endpoint: Endpoint) -> Route
    ensures { result ≡ route_of endpoint }
{
    match endpoint {
        Endpoint::Version => opened(Method::Get, PathTemplate::Version),
        Endpoint::ListDags => needing(Method::Get, PathTemplate::Dags, &READ_SOME_DAG),
        Endpoint::GetDag => needing(Method::Get, PathTemplate::Dag, &READ_DAG),
        Endpoint::PauseDag => needing(Method::Patch, PathTemplate::Dag, &EDIT_DAG),
        Endpoint::ListTasks => needing(Method::Get, PathTemplate::Tasks, &READ_TASK),
        Endpoint::ListRuns => needing(Method::Get, PathTemplate::Runs, &READ_RUN),
        Endpoint::TriggerRun => needing(Method::Post, PathTemplate::Runs, &CREATE_RUN),
        Endpoint::GetRun => needing(Method::Get, PathTemplate::Run, &READ_RUN),
        Endpoint::MarkRun => needing(Method::Patch, PathTemplate::Run, &EDIT_RUN),
        Endpoint::DeleteRun => needing(Method::Delete, PathTemplate::Run, &DELETE_RUN),
        Endpoint::ClearRun => needing(Method::Post, PathTemplate::RunClear, &EDIT_RUN),
        Endpoint::ListInstances => needing(Method::Get, PathTemplate::Instances, &READ_INSTANCE),
        Endpoint::GetInstance => needing(Method::Get, PathTemplate::Instance, &READ_INSTANCE),
        Endpoint::ClearInstances => needing(Method::Post, PathTemplate::Clear, &CLEAR_INSTANCE),
        Endpoint::ListPools => needing(Method::Get, PathTemplate::Pools, &READ_POOL),
        Endpoint::AddPool => needing(Method::Post, PathTemplate::Pools, &CREATE_POOL),
        Endpoint::GetPool => needing(Method::Get, PathTemplate::Pool, &READ_POOL),
        Endpoint::ChangePool => needing(Method::Patch, PathTemplate::Pool, &EDIT_POOL),
        Endpoint::DeletePool => needing(Method::Delete, PathTemplate::Pool, &DELETE_POOL),
        Endpoint::ListVariables => needing(Method::Get, PathTemplate::Variables, &READ_VARIABLE),
        Endpoint::AddVariable => needing(Method::Post, PathTemplate::Variables, &CREATE_VARIABLE),
        Endpoint::GetVariable => needing(Method::Get, PathTemplate::Variable, &READ_VARIABLE),
        Endpoint::ChangeVariable => needing(Method::Patch, PathTemplate::Variable, &EDIT_VARIABLE),
        Endpoint::DeleteVariable => needing(
            Method::Delete,
            PathTemplate::Variable,
            &DELETE_VARIABLE,
        ),
        Endpoint::ListEntries => needing(Method::Get, PathTemplate::Entries, &READ_ENTRY),
        Endpoint::ListRoles => needing(Method::Get, PathTemplate::Roles, &READ_ROLE),
        Endpoint::AddRole => needing(Method::Post, PathTemplate::Roles, &CREATE_ROLE),
        Endpoint::GetRole => needing(Method::Get, PathTemplate::Role, &READ_ROLE),
        Endpoint::ChangeRole => needing(Method::Patch, PathTemplate::Role, &EDIT_ROLE),
        Endpoint::DeleteRole => needing(Method::Delete, PathTemplate::Role, &DELETE_ROLE),
        Endpoint::ListUsers => needing(Method::Get, PathTemplate::Users, &READ_USER),
        Endpoint::AddUser => needing(Method::Post, PathTemplate::Users, &CREATE_USER),
        Endpoint::GetUser => needing(Method::Get, PathTemplate::User, &READ_USER),
        Endpoint::ChangeUser => needing(Method::Patch, PathTemplate::User, &EDIT_USER),
        Endpoint::DeleteUser => needing(Method::Delete, PathTemplate::User, &DELETE_USER),
        Endpoint::GetMe => needing(Method::Get, PathTemplate::Me, &[]),
        Endpoint::SyncDag => needing(Method::Post, PathTemplate::Sync, &EDIT_ROLE),
        Endpoint::BackfillDag => needing(Method::Post, PathTemplate::Backfills, &CREATE_RUN),
    }
}

/// The row of an operation that anybody may ask for.
fn opened(method: Method, template: PathTemplate) -> Route
    ensures { result ≡ opened method template }
{
    Route {
        method,
        template,
        needs: &[],
        is_open: true,
    }
}

/// The row of an operation with these requirements.
fn needing(method: Method, template: PathTemplate, needs: &'static [Need]) -> Route
    ensures { result ≡ needing method template needs.now }
{
    Route {
        method,
        template,
        needs,
        is_open: false,
    }
}

/// What an operation requires of its user, in the order in which it is tested: what the table says, and where it names no DAG,
/// of all DAGs what the table says of one.
pub fn needs_for(op: &Op) -> &'static [Need]
    ensures { result.now ≡ needs_for op.now }
{
    match op {
        Op::ListRuns(None, _) => &READ_SOME_RUN,
        Op::ListRuns(Some(_), _) => &READ_RUN,
        Op::Version => needs(Endpoint::Version),
        Op::ListDags(_) => needs(Endpoint::ListDags),
        Op::GetDag(_) => needs(Endpoint::GetDag),
        Op::PauseDag(_, _) => needs(Endpoint::PauseDag),
        Op::ListTasks(_) => needs(Endpoint::ListTasks),
        Op::TriggerRun(_, _) => needs(Endpoint::TriggerRun),
        Op::GetRun(_, _) => needs(Endpoint::GetRun),
        Op::MarkRun(_, _, _) => needs(Endpoint::MarkRun),
        Op::DeleteRun(_, _) => needs(Endpoint::DeleteRun),
        Op::ClearRun(_, _, _) => needs(Endpoint::ClearRun),
        Op::ListInstances(_, _, _) => needs(Endpoint::ListInstances),
        Op::GetInstance(_, _, _) => needs(Endpoint::GetInstance),
        Op::ClearInstances(_, _) => needs(Endpoint::ClearInstances),
        Op::BackfillDag(_, _) => needs(Endpoint::BackfillDag),
        Op::Pool(op) => needs(op.endpoint()),
        Op::Variable(op) => needs(op.endpoint()),
    }
}

/// What the table requires of an operation's user, in the order in which it is tested.
pub fn needs(endpoint: Endpoint) -> &'static [Need]
    ensures { result.now ≡ needs_of endpoint }
{
    route_of(endpoint).needs
}

/// Whether an operation only reads: it is asked for by GET.
pub(crate) fn reads_only(endpoint: Endpoint) -> bool
    ensures { result ≡ reads_only endpoint }
{
    route_of(endpoint).method == Method::Get
}

/// The operation that a method names at a path; none where the path has other methods.
pub fn endpoint_at(method: Method, template: PathTemplate) -> Option<Endpoint>
    ensures { result ≡ endpoint_at method template }
{
    ENDPOINTS
        .iter()
        .copied()
        .find(|endpoint| is_route(method, template, *endpoint))
}

fn is_route(method: Method, template: PathTemplate, endpoint: Endpoint) -> bool
    ensures { result ≡ is_route method template endpoint }
{
    let row = route_of(endpoint);
    row.method == method && row.template == template
}

/// The methods that a path has.
pub fn methods_at(template: PathTemplate) -> Methods
    ensures { result ≡ methods_at template }
{
    Methods {
        get: has_method(template, Method::Get),
        post: has_method(template, Method::Post),
        patch: has_method(template, Method::Patch),
        delete: has_method(template, Method::Delete),
    }
}

fn has_method(template: PathTemplate, method: Method) -> bool
    ensures { result ≡ has_method template method }
{
    endpoint_at(method, template).is_some()
}
