// Worked values: what the definition of a configuration gives for some texts, computed by the checker.
ghost use Rattle.std.specs.Prelude.{◌≡◌, [], ◌∷◌, codes, pos, negsuc, Err, Ok, None, Some, true, false};
ghost use Rattle.af_sched.specs.declared.outcome.Outcome.TheVariants as outcome;
ghost use Rattle.af_server.specs.declared.reason.Reason.TheVariants as reason;
ghost use Rattle.af_server.specs.Accesses.{access_taken};
ghost use Rattle.af_server.specs.Configurations.{draft_in, limits_in};
ghost use Rattle.af_server.specs.DagRows.{dag_in};
ghost use Rattle.af_server.specs.Tasks.{no_tasks, task_in, task_taken};
ghost use Rattle.af_server.specs.Worked.{access_row, access_to, access_to_two, configuration, dag, dag_of_tasks, dag_row, dag_with, dags, default_pool, edits, items, limits, pool, pools, reads, said, state_of, task, task_row, task_with, texts, two_roles, variable, variables, with_limit};
ghost use Rattle.serde_json.specs.Data.{array, boolean, no_members, null, number, object, string, unsigned, negative};

/// The first fault of each of these decides.
pub fn refusals_by_the_rule()
    ensures empty { said (codes "") ≡ None }
    ensures list { said (codes "[]") ≡ Some (Err reason.Shape) }
    ensures no_admin { said (codes "{}") ≡ Some (Err reason.Admin) }
    ensures roles { said (codes "{\"dags\":5,\"users\":5,\"roles\":{}}") ≡ Some (Err reason.Shape) }
    ensures action { said (codes "{\"roles\":[{\"name\":\"R\",\"actions\":[{\"action\":{\"name\":\"can_read\"},\"resource\":{\"name\":\"Nothing\"}},{\"action\":{\"name\":\"can_run\"},\"resource\":{\"name\":\"DAGs\"}}]}]}") ≡ Some (Err reason.Action) }
    ensures name { said (codes "{\"users\":[{\"username\":\"u\",\"roles\":[{\"name\":\"\"}],\"token_sha256\":\"00\"}]}") ≡ Some (Err reason.Name) }
    ensures pair { said (codes "{\"roles\":[{\"name\":\"R\",\"actions\":[{\"action\":{\"name\":\"can_create\"},\"resource\":{\"name\":\"DAG:a\"}}]}]}") ≡ Some (Err reason.Pair) }
    ensures default_role { said (codes "{\"roles\":[{\"name\":\"Viewer\",\"actions\":[]}]}") ≡ Some (Err reason.Duplicate) }
    ensures unknown_role { said (codes "{\"users\":[{\"username\":\"u\",\"roles\":[{\"name\":\"Nobody\"}],\"token_sha256\":\"8c6976e5b5410415bde908bd4dee15dfb167a9c873fc4bb8a81f6f2ab448a918\"}]}") ≡ Some (Err reason.Role) }
{}

/// A user and a DAG.
pub fn configuration_by_the_rule()
    ensures { said (codes "{\"users\":[{\"username\":\"u\",\"roles\":[{\"name\":\"Admin\"}],\"token_sha256\":\"8c6976e5b5410415bde908bd4dee15dfb167a9c873fc4bb8a81f6f2ab448a918\"}],\"dags\":[{\"dag_id\":\"a\",\"tasks\":[{\"task_id\":\"t\"}]}]}") ≡ Some (Ok configuration) }
{}

/// Pools: the default one may come once; names differ.
pub fn pools_by_the_rule()
    ensures default { draft_in (pools (pool (codes "default_pool") (number (unsigned 3)) ∷ [])) ≡ Ok record { state = state_of [] (default_pool 3 ∷ []); scripts = []; has_default = true } }
    ensures default_twice { draft_in (pools (pool (codes "default_pool") (number (unsigned 3)) ∷ pool (codes "default_pool") (number (unsigned 3)) ∷ [])) ≡ Err reason.Duplicate }
    ensures order { draft_in (pools (pool (codes "p") (number (unsigned 0)) ∷ [])) ≡ Ok record { state = state_of [] (default_pool 128 ∷ record { name = codes "p"; slots = 0 } ∷ []); scripts = []; has_default = false } }
    ensures twice { draft_in (pools (pool (codes "p") (number (unsigned 0)) ∷ pool (codes "p") (number (unsigned 1)) ∷ [])) ≡ Err reason.Duplicate }
    ensures too_many_slots { draft_in (pools (pool (codes "p") (number (unsigned 1000001)) ∷ [])) ≡ Err reason.Limit }
    ensures no_slots { draft_in (pools (pool (codes "p") null ∷ [])) ≡ Err reason.Shape }
{}

/// Variables: in byte order of their keys, which differ; a text may be empty.
pub fn variables_by_the_rule()
    ensures order { draft_in (variables (variable (codes "b") (string (codes "v")) ∷ variable (codes "a") (string []) ∷ [])) ≡ Ok record { state = record (state_of [] (default_pool 128 ∷ [])) { variables = record { key = codes "a"; value = [] } ∷ record { key = codes "b"; value = codes "v" } ∷ [] }; scripts = []; has_default = false } }
    ensures twice { draft_in (variables (variable (codes "k") (string (codes "v")) ∷ variable (codes "k") (string (codes "w")) ∷ [])) ≡ Err reason.Duplicate }
    ensures bad_key { draft_in (variables (variable (codes "") null ∷ [])) ≡ Err reason.Name }
    ensures no_value { draft_in (variables (variable (codes "k") null ∷ [])) ≡ Err reason.Shape }
    ensures number { draft_in (variables (variable (codes "k") (number (unsigned 1)) ∷ [])) ≡ Err reason.Shape }
{}

/// Limits: what is absent is by default; each kind of fault.
pub fn limits_by_the_rule()
    ensures default { limits_in (with_limit (codes "history_limit") null) ≡ Ok (limits 1000000 4294967295) }
    ensures least { limits_in (with_limit (codes "history_limit") (number (unsigned 1))) ≡ Ok (limits 1 4294967295) }
    ensures most { limits_in (with_limit (codes "version_limit") (number (unsigned 4294967295))) ≡ Ok (limits 1000000 4294967295) }
    ensures no_history { limits_in (with_limit (codes "history_limit") (number (unsigned 0))) ≡ Err reason.Limit }
    ensures long_history { limits_in (with_limit (codes "history_limit") (number (unsigned 4294967295))) ≡ Err reason.Limit }
    ensures no_versions { limits_in (with_limit (codes "version_limit") (number (negative (negsuc 0)))) ≡ Err reason.Limit }
    ensures no_number { limits_in (with_limit (codes "version_limit") (boolean true)) ≡ Err reason.Shape }
{}

/// Tasks: what is absent is by default; each kind of fault.
pub fn tasks_by_the_rule()
    ensures default { task_in (default_pool 128 ∷ []) task ≡ Ok task_row }
    ensures weight { task_in (default_pool 128 ∷ []) (task_with (codes "priority_weight") (number (negative (negsuc 2147483647)))) ≡ Ok record task_row { priority_weight = negsuc 2147483647 } }
    ensures light { task_in (default_pool 128 ∷ []) (task_with (codes "priority_weight") (number (negative (negsuc 2147483648)))) ≡ Err reason.Limit }
    ensures no_pool { task_in (default_pool 128 ∷ []) (task_with (codes "pool") (string (codes "p"))) ≡ Err reason.Pool }
    ensures no_slots { task_in (default_pool 128 ∷ []) (task_with (codes "pool_slots") (number (negative (negsuc 0)))) ≡ Ok record task_row { pool_slots = 0 } }
    ensures retries { task_in (default_pool 128 ∷ []) (task_with (codes "retries") (number (unsigned 1001))) ≡ Err reason.Limit }
    ensures rule { task_in (default_pool 128 ∷ []) (task_with (codes "trigger_rule") (string (codes "all_successes"))) ≡ Err reason.Shape }
    ensures upstream { task_in (default_pool 128 ∷ []) (task_with (codes "upstream") (array (items (string (codes "a b") ∷ null ∷ [])))) ≡ Err reason.Shape }
    ensures script { task_taken (default_pool 128 ∷ []) (codes "a") no_tasks (task_with (codes "script") (array (items (string (codes "failed") ∷ string (codes "skipped") ∷ [])))) ≡ Ok record { tasks = task_row ∷ []; scripts = record { dag_id = codes "a"; task_id = codes "t"; outcomes = outcome.Failed ∷ outcome.Skipped ∷ [] } ∷ [] } }
    ensures outcome { task_taken (default_pool 128 ∷ []) (codes "a") no_tasks (task_with (codes "script") (array (items (string (codes "lost") ∷ [])))) ≡ Err reason.Shape }
{}

/// DAGs: in byte order of their ids; each kind of fault, in its order.
pub fn dags_by_the_rule()
    ensures order { draft_in (dags (dag (codes "b") ∷ dag (codes "a") ∷ [])) ≡ Ok record { state = state_of (dag_row (codes "a") ∷ dag_row (codes "b") ∷ []) (default_pool 128 ∷ []); scripts = []; has_default = false } }
    ensures twice { draft_in (dags (dag (codes "a") ∷ dag (codes "a") ∷ [])) ≡ Err reason.Duplicate }
    ensures no_task { draft_in (dags (dag_of_tasks (codes "a") [] ∷ [])) ≡ Err reason.Graph }
    ensures cycle { draft_in (dags (dag_of_tasks (codes "a") (task_with (codes "upstream") (array (items (string (codes "t") ∷ []))) ∷ []) ∷ [])) ≡ Err reason.Graph }
    ensures graph_before_twice { draft_in (dags (dag (codes "a") ∷ dag_of_tasks (codes "a") [] ∷ [])) ≡ Err reason.Graph }
    ensures no_preset { dag_in [] (dag_with (codes "a") (codes "schedule") (string (codes "@often"))) ≡ Err reason.Schedule }
    ensures no_start { dag_in [] (dag_with (codes "a") (codes "schedule") (string (codes "@daily"))) ≡ Err reason.Schedule }
    ensures no_schedule { dag_in [] (dag_with (codes "a") (codes "schedule") (boolean true)) ≡ Err reason.Shape }
    ensures no_step { dag_in [] (dag_with (codes "a") (codes "schedule") (number (unsigned 0))) ≡ Err reason.Limit }
    ensures too_many { dag_in [] (dag_with (codes "a") (codes "max_active_runs") (number (unsigned 1001))) ≡ Err reason.Limit }
    ensures no_truth { dag_in [] (dag_with (codes "a") (codes "is_paused") (number (unsigned 0))) ≡ Err reason.Shape }
    ensures bad_name { dag_in [] (dag_with (codes "a/b") (codes "schedule") (boolean true)) ≡ Err reason.Name }
{}

/// Access control: absent, empty, listed; each kind of fault, in its order.
pub fn access_by_the_rule()
    ensures absent { access_taken (two_roles (edits (codes "a") ∷ []) (reads (codes "a") ∷ [])) (access_row null) ≡ Ok (two_roles (edits (codes "a") ∷ []) (reads (codes "a") ∷ [])) }
    ensures empty { access_taken (two_roles (edits (codes "a") ∷ []) (reads (codes "a") ∷ reads (codes "b") ∷ [])) (access_row (object no_members)) ≡ Ok (two_roles (edits (codes "a") ∷ []) (reads (codes "b") ∷ [])) }
    ensures listed { access_taken (two_roles [] (reads (codes "b") ∷ [])) (access_row (access_to (codes "R") (texts (string (codes "can_edit") ∷ string (codes "can_read") ∷ string (codes "can_edit") ∷ [])))) ≡ Ok (two_roles [] (reads (codes "a") ∷ edits (codes "a") ∷ reads (codes "b") ∷ [])) }
    ensures to_admin { access_taken (two_roles (edits (codes "a") ∷ []) []) (access_row (access_to (codes "Admin") (texts (string (codes "can_read") ∷ [])))) ≡ Ok (two_roles (reads (codes "a") ∷ edits (codes "a") ∷ []) []) }
    ensures no_object { access_taken (two_roles [] []) (access_row (texts [])) ≡ Err reason.Shape }
    ensures no_list { access_taken (two_roles [] []) (access_row (access_to (codes "R") null)) ≡ Err reason.Shape }
    ensures kinds_before_names { access_taken (two_roles [] []) (access_row (access_to_two (codes "") (texts []) (codes "R") (texts (null ∷ [])))) ≡ Err reason.Shape }
    ensures no_name { access_taken (two_roles [] []) (access_row (access_to (codes "") (texts (string (codes "can_fly") ∷ [])))) ≡ Err reason.Name }
    ensures action_before_role { access_taken (two_roles [] []) (access_row (access_to_two (codes "Nobody") (texts []) (codes "R") (texts (string (codes "can_create") ∷ [])))) ≡ Err reason.Action }
    ensures no_role { access_taken (two_roles [] []) (access_row (access_to (codes "Nobody") (texts []))) ≡ Err reason.Role }
{}
