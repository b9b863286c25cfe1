//! Worked values of the operations on the policy, computed by the checker.
ghost use Rattle.std.specs.Prelude.{◌≡◌, [], ◌∷◌, codes, Err, Ok, None, Some, true, false};
ghost use Rattle.af_policy.specs.declared.ask.Ask.TheVariants.{Bad, Made};
ghost use Rattle.af_policy.specs.declared.bad_input.BadInput.TheVariants as bad;
ghost use Rattle.af_policy.specs.declared.bad_input.Member.TheVariants as member;
ghost use Rattle.af_policy.specs.declared.bad_input.Parameter.TheVariants as parameter;
ghost use Rattle.af_policy.specs.declared.change.Change.TheVariants as change;
ghost use Rattle.af_policy.specs.declared.change_kind.ChangeKind.TheVariants as kind;
ghost use Rattle.af_policy.specs.declared.policy_read.PolicyRead.TheVariants as read;
ghost use Rattle.af_policy.specs.declared.read_kind.ReadKind.TheVariants as reading;
ghost use Rattle.af_policy.specs.Samples.{bob_digest, vera_digest};
ghost use Rattle.af_ops.specs.declared.call.Call.TheVariants.{Entries, Policy};
ghost use Rattle.af_ops.specs.declared.endpoint.Endpoint.TheVariants as endpoint;
ghost use Rattle.af_ops.specs.declared.method.Method.TheVariants.{Get, Post};
ghost use Rattle.af_ops.specs.declared.path_template.PathTemplate.TheVariants as template;
ghost use Rattle.af_ops.specs.declared.policy_op.PolicyOp.TheVariants as asks;
ghost use Rattle.af_ops.specs.declared.status.Status.TheVariants as status;
ghost use Rattle.af_ops.specs.Calls.{call_of_row};
ghost use Rattle.af_ops.specs.Endpoints.{are_names};
ghost use Rattle.af_ops.specs.PolicyBodies.{role_added, role_changed, sync_asked, user_added, user_changed};
ghost use Rattle.af_ops.specs.PolicyOps.{made};
ghost use Rattle.af_ops.specs.Table.{methods_at, segments_of, spelled};
ghost use Rattle.af_ops.specs.WorkedPolicies.{change_told, first, given, me_told, read_told, second, span, sync, sync_none, sync_one, third_and_last, told};

/// Who brings a token is told what that user may do, whoever it is.
pub fn identities_by_the_rule()
    ensures bob { me_told first (codes "bob") ≡ told 0 status.Ok (Some (codes "{\"permissions\":[\"DAG:b.can_read\"],\"policy_version\":0,\"roles\":[\"OnlyB\"],\"username\":\"bob\"}")) }
    ensures pat { me_told second (codes "pat") ≡ told 1 status.Ok (Some (codes "{\"permissions\":[],\"policy_version\":1,\"roles\":[\"Public\"],\"username\":\"pat\"}")) }
    ensures edna { me_told first (codes "edna") ≡ told 0 status.Ok (Some (codes "{\"permissions\":[\"DAGs.can_read\",\"DAG Runs.can_read\",\"Task Instances.can_read\",\"DAG:b.can_edit\"],\"policy_version\":0,\"roles\":[\"EditB\",\"Viewer\"],\"username\":\"edna\"}")) }
{}

/// Roles and users as they are read, by who may.
pub fn policy_readings_by_the_rule()
    ensures role { read_told first (codes "adam") (read.Role (codes "OnlyB")) ≡ told 0 status.Ok (Some (codes "{\"actions\":[{\"action\":{\"name\":\"can_read\"},\"resource\":{\"name\":\"DAG:b\"}}],\"name\":\"OnlyB\"}")) }
    ensures runs { read_told first (codes "adam") (read.Role (codes "RunsB")) ≡ told 0 status.Ok (Some (codes "{\"actions\":[{\"action\":{\"name\":\"can_read\"},\"resource\":{\"name\":\"DAG Runs\"}},{\"action\":{\"name\":\"can_read\"},\"resource\":{\"name\":\"DAG:b\"}}],\"name\":\"RunsB\"}")) }
    ensures roles { read_told first (codes "adam") (read.Roles (span 2 1)) ≡ told 0 status.Ok (Some (codes "{\"roles\":[{\"actions\":[{\"action\":{\"name\":\"can_edit\"},\"resource\":{\"name\":\"DAG:b\"}}],\"name\":\"EditB\"},{\"actions\":[{\"action\":{\"name\":\"can_read\"},\"resource\":{\"name\":\"DAG:b\"}}],\"name\":\"OnlyB\"}],\"total_entries\":8}")) }
    ensures users { read_told first (codes "adam") (read.Users (span 1 0)) ≡ told 0 status.Ok (Some (codes "{\"total_entries\":8,\"users\":[{\"roles\":[{\"name\":\"Admin\"}],\"username\":\"adam\"}]}")) }
    ensures user { read_told second (codes "zoe") (read.User (codes "edna")) ≡ told 1 status.Ok (Some (codes "{\"roles\":[{\"name\":\"EditB\"},{\"name\":\"Viewer\"}],\"username\":\"edna\"}")) }
    ensures past { read_told first (codes "adam") (read.Users (span 100 4_294_967_295)) ≡ told 0 status.Ok (Some (codes "{\"total_entries\":8,\"users\":[]}")) }
    ensures no_role { read_told first (codes "adam") (read.Role (codes "X")) ≡ told 0 status.NotFound (Some (codes "{\"detail\":\"no such role: X\",\"status\":404,\"title\":\"Not Found\",\"type\":\"about:blank\"}")) }
    ensures no_user { read_told first (codes "adam") (read.User (codes "bo\"b")) ≡ told 0 status.NotFound (Some (codes "{\"detail\":\"no such user: bo\\\"b\",\"status\":404,\"title\":\"Not Found\",\"type\":\"about:blank\"}")) }
    ensures denied { read_told first (codes "bob") (read.Role (codes "X")) ≡ told 0 status.Forbidden (Some (codes "{\"detail\":\"missing permission Roles.can_read\",\"status\":403,\"title\":\"Forbidden\",\"type\":\"about:blank\"}")) }
    ensures bad { read_told first (codes "adam") (read.Bad reading.Users (bad.Parameter parameter.Offset)) ≡ told 0 status.BadRequest (Some (codes "{\"detail\":\"bad parameter: offset\",\"status\":400,\"title\":\"Bad Request\",\"type\":\"about:blank\"}")) }
{}

/// Changes that are made are told with the version that they make, and as what they change then stands.
pub fn policy_changes_by_the_rule()
    ensures synced { change_told first (codes "adam") (Made sync) ≡ told 1 status.Ok (Some (codes "{\"dag_id\":\"b\",\"policy_version\":1}")) }
    ensures emptied { change_told second (codes "adam") (Made sync_none) ≡ told 2 status.Ok (Some (codes "{\"dag_id\":\"b\",\"policy_version\":2}")) }
    ensures added { change_told first (codes "adam") (Made (change.AddRole (record { name = codes "Two"; actions = given (codes "can_edit") (codes "DAG:b") ∷ given (codes "can_read") (codes "Pools") ∷ given (codes "can_edit") (codes "DAG:b") ∷ [] }))) ≡ told 1 status.Ok (Some (codes "{\"actions\":[{\"action\":{\"name\":\"can_read\"},\"resource\":{\"name\":\"Pools\"}},{\"action\":{\"name\":\"can_edit\"},\"resource\":{\"name\":\"DAG:b\"}}],\"name\":\"Two\"}")) }
    ensures set { change_told first (codes "adam") (Made (change.SetRole (record { name = codes "OnlyB"; actions = [] }))) ≡ told 1 status.Ok (Some (codes "{\"actions\":[],\"name\":\"OnlyB\"}")) }
    ensures user { change_told first (codes "adam") (Made (change.SetUser (record { name = codes "bob"; digest = None; roles = Some (codes "Viewer" ∷ codes "OnlyB" ∷ codes "Viewer" ∷ []) }))) ≡ told 1 status.Ok (Some (codes "{\"roles\":[{\"name\":\"OnlyB\"},{\"name\":\"Viewer\"},{\"name\":\"Viewer\"}],\"username\":\"bob\"}")) }
    ensures dropped { change_told first (codes "adam") (Made (change.DropUser (codes "zoe"))) ≡ told 1 status.NoContent None }
{}

/// Changes that are refused are told with the version that they were decided under.
pub fn policy_faults_by_the_rule()
    ensures bad_action { change_told third_and_last (codes "adam") (Made (sync_one (codes "OnlyB") (codes "can_create"))) ≡ told 2 status.BadRequest (Some (codes "{\"detail\":\"bad action: can_create\",\"status\":400,\"title\":\"Bad Request\",\"type\":\"about:blank\"}")) }
    ensures unknown_role { change_told third_and_last (codes "adam") (Made (sync_one (codes "Nobody") (codes "can_read"))) ≡ told 2 status.BadRequest (Some (codes "{\"detail\":\"unknown role: Nobody\",\"status\":400,\"title\":\"Bad Request\",\"type\":\"about:blank\"}")) }
    ensures pair { change_told first (codes "adam") (Made (change.AddRole (record { name = codes "Viewer"; actions = given (codes "can_create") (codes "DAG:b") ∷ [] }))) ≡ told 0 status.BadRequest (Some (codes "{\"detail\":\"pair not allowed: DAG:b.can_create\",\"status\":400,\"title\":\"Bad Request\",\"type\":\"about:blank\"}")) }
    ensures exists { change_told first (codes "adam") (Made (change.AddRole (record { name = codes "Viewer"; actions = [] }))) ≡ told 0 status.Conflict (Some (codes "{\"detail\":\"exists: Viewer\",\"status\":409,\"title\":\"Conflict\",\"type\":\"about:blank\"}")) }
    ensures taken { change_told first (codes "adam") (Made (change.SetUser (record { name = codes "bob"; digest = Some vera_digest; roles = None }))) ≡ told 0 status.Conflict (Some (codes "{\"detail\":\"exists: bob\",\"status\":409,\"title\":\"Conflict\",\"type\":\"about:blank\"}")) }
    ensures in_use { change_told first (codes "adam") (Made (change.DropRole (codes "OnlyB"))) ≡ told 0 status.Conflict (Some (codes "{\"detail\":\"role in use: OnlyB\",\"status\":409,\"title\":\"Conflict\",\"type\":\"about:blank\"}")) }
    ensures default_role { change_told first (codes "adam") (Made (change.DropRole (codes "Viewer"))) ≡ told 0 status.Conflict (Some (codes "{\"detail\":\"default role: Viewer\",\"status\":409,\"title\":\"Conflict\",\"type\":\"about:blank\"}")) }
    ensures no_role { change_told first (codes "adam") (Made (change.DropRole (codes "X"))) ≡ told 0 status.NotFound (Some (codes "{\"detail\":\"no such role: X\",\"status\":404,\"title\":\"Not Found\",\"type\":\"about:blank\"}")) }
    ensures no_user { change_told first (codes "adam") (Made (change.DropUser (codes "X"))) ≡ told 0 status.NotFound (Some (codes "{\"detail\":\"no such user: X\",\"status\":404,\"title\":\"Not Found\",\"type\":\"about:blank\"}")) }
    ensures bad_body { change_told first (codes "adam") (Bad kind.AddUser bad.Body) ≡ told 0 status.BadRequest (Some (codes "{\"detail\":\"bad body\",\"status\":400,\"title\":\"Bad Request\",\"type\":\"about:blank\"}")) }
    ensures bad_member { change_told first (codes "adam") (Bad kind.SyncDag (bad.Member member.AccessControl)) ≡ told 0 status.BadRequest (Some (codes "{\"detail\":\"bad member: access_control\",\"status\":400,\"title\":\"Bad Request\",\"type\":\"about:blank\"}")) }
    ensures denied { change_told second (codes "vera") (Bad kind.SyncDag bad.Body) ≡ told 1 status.Forbidden (Some (codes "{\"detail\":\"missing permission Roles.can_edit\",\"status\":403,\"title\":\"Forbidden\",\"type\":\"about:blank\"}")) }
    ensures full { change_told third_and_last (codes "adam") (Made sync) ≡ told 2 status.InsufficientStorage (Some (codes "{\"detail\":\"versions full\",\"status\":507,\"title\":\"Insufficient Storage\",\"type\":\"about:blank\"}")) }
    ensures conflict_first { change_told third_and_last (codes "adam") (Made (change.DropRole (codes "OnlyB"))) ≡ told 2 status.Conflict (Some (codes "{\"detail\":\"role in use: OnlyB\",\"status\":409,\"title\":\"Conflict\",\"type\":\"about:blank\"}")) }
{}

/// Bodies of changes: all members are read, and the first fault in their written order is told.
pub fn policy_bodies_by_the_rule()
    ensures role { role_added (codes "{\"actions\":[{\"resource\":{\"name\":\"Pools\"},\"action\":{\"name\":\"no action\"}}],\"name\":\"R\"}") ≡ made (change.AddRole (record { name = codes "R"; actions = given (codes "no action") (codes "Pools") ∷ [] })) }
    ensures no_name { role_added (codes "{\"actions\":1}") ≡ asks.Change (Bad kind.AddRole (bad.Member member.Name)) }
    ensures no_actions { role_added (codes "{\"name\":\"R\",\"actions\":null}") ≡ asks.Change (Bad kind.AddRole (bad.Member member.Actions)) }
    ensures no_resource { role_changed (codes "R") (codes "{\"actions\":[{\"action\":{\"name\":\"can_read\"}}]}") ≡ asks.Change (Bad kind.SetRole (bad.Member member.Actions)) }
    ensures cut { role_changed (codes "R") (codes "{") ≡ asks.Change (Bad kind.SetRole bad.Body) }
    ensures user { user_added (codes "{\"username\":\"bob\",\"roles\":[{\"name\":\"B\"},{\"name\":\"A\"},{\"name\":\"B\"}],\"token_sha256\":\"2C26b46b68ffc68ff99b453c1d30413413422d706483bfa0f98a5e886266e7ae\"}") ≡ made (change.AddUser (record { name = codes "bob"; digest = bob_digest; roles = codes "B" ∷ codes "A" ∷ codes "B" ∷ [] })) }
    ensures no_role { user_added (codes "{\"username\":\"bob\",\"roles\":[{\"name\":\"\"}],\"token_sha256\":1}") ≡ asks.Change (Bad kind.AddUser (bad.Member member.Roles)) }
    ensures short { user_changed (codes "bob") (codes "{\"token_sha256\":\"2c26\"}") ≡ asks.Change (Bad kind.SetUser (bad.Member member.TokenSha256)) }
    ensures nothing { user_changed (codes "bob") (codes "{\"roles\":null}") ≡ made (change.SetUser (record { name = codes "bob"; digest = None; roles = None })) }
    ensures in_order { sync_asked (codes "b") (codes "{\"access_control\":{\"Zed\":[\"x\"],\"Abe\":[\"y\"]}}") ≡ made (change.SyncDag (record { dag = codes "b"; access = Some (record { role = codes "Abe"; actions = codes "y" ∷ []; runs = [] } ∷ record { role = codes "Zed"; actions = codes "x" ∷ []; runs = [] } ∷ []) })) }
    ensures runs { sync_asked (codes "b") (codes "{\"access_control\":{\"OnlyB\":{\"DAGs\":[\"can_read\"],\"DAG Runs\":[\"can_create\",\"x\"]}}}") ≡ made (change.SyncDag (record { dag = codes "b"; access = Some (record { role = codes "OnlyB"; actions = codes "can_read" ∷ []; runs = codes "can_create" ∷ codes "x" ∷ [] } ∷ []) })) }
    ensures runs_alone { sync_asked (codes "b") (codes "{\"access_control\":{\"OnlyB\":{\"DAG Runs\":[\"can_read\"]}}}") ≡ made (change.SyncDag (record { dag = codes "b"; access = Some (record { role = codes "OnlyB"; actions = []; runs = codes "can_read" ∷ [] } ∷ []) })) }
    ensures null_list { sync_asked (codes "b") (codes "{\"access_control\":{\"OnlyB\":{\"DAGs\":null}}}") ≡ made (change.SyncDag (record { dag = codes "b"; access = Some (record { role = codes "OnlyB"; actions = []; runs = [] } ∷ []) })) }
    ensures no_list { sync_asked (codes "b") (codes "{\"access_control\":{\"OnlyB\":{}}}") ≡ made (change.SyncDag (record { dag = codes "b"; access = Some (record { role = codes "OnlyB"; actions = []; runs = [] } ∷ []) })) }
    ensures last_list { sync_asked (codes "b") (codes "{\"access_control\":{\"OnlyB\":{\"DAGs\":1,\"DAGs\":[\"x\"]}}}") ≡ made (change.SyncDag (record { dag = codes "b"; access = Some (record { role = codes "OnlyB"; actions = codes "x" ∷ []; runs = [] } ∷ []) })) }
    ensures wrong_list { sync_asked (codes "b") (codes "{\"access_control\":{\"OnlyB\":{\"DAG Runs\":{}}}}") ≡ asks.Change (Bad kind.SyncDag (bad.Member member.AccessControl)) }
    ensures other_list { sync_asked (codes "b") (codes "{\"access_control\":{\"OnlyB\":{\"Pools\":[\"can_read\"]}}}") ≡ asks.Change (Bad kind.SyncDag (bad.Member member.AccessControl)) }
    ensures other_null { sync_asked (codes "b") (codes "{\"access_control\":{\"OnlyB\":{\"Pools\":null}}}") ≡ asks.Change (Bad kind.SyncDag (bad.Member member.AccessControl)) }
    ensures null_role { sync_asked (codes "b") (codes "{\"access_control\":{\"OnlyB\":null}}") ≡ asks.Change (Bad kind.SyncDag (bad.Member member.AccessControl)) }
    ensures misnamed { sync_asked (codes "b") (codes "{\"access_control\":{\"\":[]}}") ≡ asks.Change (Bad kind.SyncDag (bad.Member member.AccessControl)) }
    ensures absent { sync_asked (codes "b") (codes "{\"access_control\":null}") ≡ made (change.SyncDag (record { dag = codes "b"; access = None })) }
{}

/// Requests on event logs and on the policy by the table.
pub fn policy_routes_by_the_rule()
    ensures entries { call_of_row endpoint.ListEntries [] (codes "limit=2") [] ≡ Some (Entries (Ok (record { limit = 2; offset = 0 }))) }
    ensures bad_entries { call_of_row endpoint.ListEntries [] (codes "limit=x") [] ≡ Some (Entries (Err parameter.Limit)) }
    ensures me { call_of_row endpoint.GetMe [] (codes "limit=x") (codes "{") ≡ Some (Policy asks.Me) }
    ensures roles { call_of_row endpoint.ListRoles [] (codes "offset=99999999999&limit=200") [] ≡ Some (Policy (asks.Read (read.Roles (span 100 4_294_967_295)))) }
    ensures users { call_of_row endpoint.ListUsers [] (codes "offset=-1") [] ≡ Some (Policy (asks.Read (read.Bad reading.Users (bad.Parameter parameter.Offset)))) }
    ensures role { call_of_row endpoint.GetRole (codes "a b" ∷ []) [] [] ≡ Some (Policy (asks.Read (read.Role (codes "a b")))) }
    ensures no_name { call_of_row endpoint.DeleteRole ([] ∷ []) [] [] ≡ None }
    ensures no_part { are_names (Some Get) template.User ([] ∷ []) ≡ false }
    ensures all_dags { are_names (Some Post) template.Sync (codes "~" ∷ []) ≡ false }
    ensures me_path { spelled (segments_of template.Me) ≡ codes "/own/me" }
    ensures sync_path { spelled (segments_of template.Sync) ≡ codes "/own/dags/{dag_id}/sync" }
    ensures role_path { spelled (segments_of template.Role) ≡ codes "/api/v1/roles/{role_name}" }
    ensures sync_methods { methods_at template.Sync ≡ record { get = false; post = true; patch = false; delete = false } }
    ensures role_methods { methods_at template.Role ≡ record { get = true; post = false; patch = true; delete = true } }
    ensures users_methods { methods_at template.Users ≡ record { get = true; post = true; patch = false; delete = false } }
{}
