// The configuration: a JSON object of roles, users, pools, variables, DAGs and limits.
ghost use Rattle.std.specs.Prelude.{◌≡◌, ◌<◌, length, map, Ok, Err, IfOk, ok_or};
ghost use Rattle.af_base.specs.JsonValue.{view};
ghost use Rattle.af_policy.specs.Rows.{IsPolicy};
ghost use Rattle.af_sched.specs.State.{AreRows};
ghost use Rattle.af_base.specs.Parsed.{json_of};
ghost use Rattle.af_base.specs.Readings.{OrMemory, seen};
ghost use Rattle.af_server.specs.declared.reason.Reason.{Reason};
ghost use Rattle.af_server.specs.Configurations.{begun_in, configuration_in, configuration_of, configuration_of_parts, configuration_under, configuration_with, configuration_within, longest, some_user, users_begun};

mod access;
mod dags;
mod draft;
mod limits;
mod lists;
mod pools;
mod roles;
mod rules;
mod schedules;
mod scripts;
mod tasks;
mod upstream;
mod users;
mod variables;

use crate::members::optional_list;
use crate::reason::Reason;
use access::sync_dags;
use af_base::{Json, json_in};
use af_policy::Policy;
use af_sched::{Script, State};
use draft::StateDraft;
use json::Scratch;
pub use limits::Limits;
use limits::read_limits;
use std::alloc::Global;
use std::marker::Model;

/// How long a configuration may be, in bytes.
pub const LONGEST: usize = 16 * 1024 * 1024;

/// What a configuration says: who may do what, what there is, how the tries of tasks end that say it, and how much there may be.
#[derive(Drop)]
pub struct Configuration {
    pub policy: Policy,
    pub state: State,
    /// Nothing runs them yet.
    pub scripts: Vec<Script>,
    pub limits: Limits,
}

impl Model for Configuration {
    ghost use Rattle.af_server.specs.Configurations.{ConfigurationRows};

    ghost Value = { ConfigurationRows };

    ghost view = { λ configuration. record {
      policy = configuration.policy;
      state = configuration.state.rows;
      scripts = configuration.scripts.items;
      limits = configuration.limits;
    } };
}

impl Configuration {
    /// Reads a configuration. The lists are taken in order, roles, users, pools, variables and DAGs, and rows in theirs, then the
    /// access control of the DAGs, and then the limits; the first fault decides the reason. Of a row, its members are read first, in
    /// order (kind, then name, then limits), and then its own faults are looked for. `Memory` comes only of bytes that are not too
    /// long, where a growth was refused before a fault was met; what they say is known once they are read as JSON, which takes
    /// memory, and from then on `of_value` says where it comes.
    pub fn read(alloc: Global, bytes: &[u8]) -> Result<Configuration, Reason>
        ensures read { OrMemory Reason.Memory (configuration_of bytes.now) result }
        ensures long { longest < length bytes.now → result ≡ Err Reason.Unreadable }
        ensures conditions { IfOk result (λ c. IsPolicy c.policy × AreRows c.state.dags c.state.runs) }
    {
        if bytes.len() > LONGEST {
            return Err(Reason::Unreadable);
        }
        let mut scratch = Scratch::new(alloc);
        let value = parse(alloc, bytes, &mut scratch)?;
        let configuration = Configuration::of_value(alloc, &value)?;
        configuration.conditions();
        Ok(configuration)
    }

    /// The conditions that each configuration meets: those of a policy, and those of a scheduler's rows.
    fn conditions(&self)
        ensures policy { IsPolicy self.now.policy }
        ensures rows { AreRows self.now.state.dags self.now.state.runs }
    {
        self.policy.conditions();
        let _dags = self.state.dags();
    }

    /// Reads what a JSON value says. `Memory` comes only of an object whose roles are a list, and which lists a role or a user: else
    /// the reason is told, memory or not.
    #[tactic(auto, using(crate::proofs::ConfigurationLemmas::begun_decides, crate::proofs::ConfigurationLemmas::begun_is_told))]
    pub fn of_value(alloc: Global, value: &Json<'_>) -> Result<Configuration, Reason>
        ensures read { OrMemory Reason.Memory (configuration_in (view value.now)) result }
        ensures memory { result ≡ Err Reason.Memory → begun_in (view value.now) ≡ Ok tt }
    {
        match begin(value) {
            Ok(()) => Configuration::of_object(alloc, value),
            Err(reason) => Err(reason),
        }
    }

    fn of_object(alloc: Global, value: &Json<'_>) -> Result<Configuration, Reason>
        ensures { OrMemory Reason.Memory (configuration_in (view value.now)) result }
    {
        if !value.is_object() {
            return Err(Reason::Shape);
        }
        let policy = lists::read_policy(alloc, value)?;
        Configuration::of_policy(alloc, value, policy)
    }

    /// Reads what an object says beside this policy, which it lists.
    fn of_policy(alloc: Global, value: &Json<'_>, policy: Policy) -> Result<Configuration, Reason>
        ensures { OrMemory Reason.Memory (configuration_under (view value.now) policy) result }
    {
        match lists::read_state(alloc, value) {
            Ok(draft) => Configuration::of_lists(alloc, value, policy, draft),
            Err(reason) => {
                drop(policy);
                Err(reason)
            }
        }
    }

    /// Reads what an object says beside this policy and this state, which it lists.
    fn of_lists(
        alloc: Global,
        value: &Json<'_>,
        policy: Policy,
        draft: StateDraft,
    ) -> Result<Configuration, Reason>
        ensures { OrMemory Reason.Memory (configuration_with (view value.now) policy draft) result }
    {
        match sync_dags(alloc, policy, value) {
            Ok(synced) => Configuration::within_limits(value, synced, draft),
            Err(reason) => {
                drop(draft);
                Err(reason)
            }
        }
    }

    /// Reads the limits, under which the policy and the state stand.
    fn within_limits(
        value: &Json<'_>,
        policy: Policy,
        draft: StateDraft,
    ) -> Result<Configuration, Reason>
        ensures { result ≡ configuration_within (view value.now) policy draft }
    {
        match read_limits(value) {
            Ok(limits) => Ok(Configuration::of_parts(policy, draft, limits)),
            Err(reason) => {
                drop(policy);
                drop(draft);
                Err(reason)
            }
        }
    }

    /// The configuration of its parts.
    fn of_parts(policy: Policy, draft: StateDraft, limits: Limits) -> Configuration
        ensures { result ≡ configuration_of_parts policy draft limits }
    {
        let StateDraft { state, scripts, .. } = draft;
        Configuration {
            policy,
            state,
            scripts,
            limits,
        }
    }
}

/// What is told before any memory is wanted: that the value is no object, or its roles no list; and where no role is listed, that its
/// users are no list, or that there are none, so that nobody has Admin.
fn begin(value: &Json<'_>) -> Result<(), Reason>
    ensures { result ≡ begun_in (view value.now) }
{
    if !value.is_object() {
        return Err(Reason::Shape);
    }
    let roles = optional_list(value, "roles")?;
    begin_users(value, roles)
}

fn begin_users(config: &Json<'_>, roles: &[Json<'_>]) -> Result<(), Reason>
    ensures { result ≡ users_begun (view config.now) (map view roles.now) }
{
    match roles.split_first() {
        None => some_user(optional_list(config, "users")?),
        Some(_) => Ok(()),
    }
}

fn some_user(rows: &[Json<'_>]) -> Result<(), Reason>
    ensures { result ≡ some_user (map view rows.now) }
{
    match rows.split_first() {
        None => Err(Reason::Admin),
        Some(_) => Ok(()),
    }
}

/// The JSON value that the bytes are the text of.
pub fn parse<'a>(
    alloc: Global,
    bytes: &'a [u8],
    scratch: &'a mut Scratch,
) -> Result<Json<'a>, Reason>
    ensures { OrMemory Reason.Memory (ok_or (json_of bytes.now) Reason.Syntax) (seen view result) }
{
    json_in(alloc, bytes, scratch)?.ok_or(Reason::Syntax)
}
