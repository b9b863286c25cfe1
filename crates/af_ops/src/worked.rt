//! Worked values: what the definitions give for those who ask, on one policy and one state, computed by the checker.
ghost use Rattle.std.specs.Prelude.{◌≡◌, [], ◌∷◌, codes, map, Err, Ok, None, Some, true, false};
ghost use Rattle.af_ops.specs.declared.answer.CallFault.TheVariants as why;
ghost use Rattle.af_ops.specs.declared.answer.OpFault.TheVariants as fault;
ghost use Rattle.af_ops.specs.declared.body_fault.BodyFault.TheVariants.{BadBody, BadMember};
ghost use Rattle.af_ops.specs.declared.body_fault.Member.TheVariants.{Conf, DagRunId, ExecutionDate, IsPaused, LogicalDate, State};
ghost use Rattle.af_ops.specs.declared.endpoint.Endpoint.TheVariants as endpoint;
ghost use Rattle.af_ops.specs.declared.method.Method.TheVariants.{Get, Post};
ghost use Rattle.af_ops.specs.declared.op.Op.TheVariants as op;
ghost use Rattle.af_ops.specs.declared.path_template.PathTemplate.TheVariants as template;
ghost use Rattle.af_ops.specs.declared.status.Status.TheVariants as status;
ghost use Rattle.af_role.specs.declared.action.Action.TheVariants.{Read, Edit};
ghost use Rattle.af_role.specs.declared.resource.ResourceKind.TheVariants.{DagRuns, TaskInstances};
ghost use Rattle.af_runs.specs.declared.mark.Mark.TheVariants as mark;
ghost use Rattle.serde_json.specs.Written.{compact_text};
ghost use Rattle.af_listing.specs.Windows.{window_of};
ghost use Rattle.af_ops.specs.Bodies.{mark_in, pause_in, trigger_in};
ghost use Rattle.af_ops.specs.declared.call.Call.TheVariants as call;
ghost use Rattle.af_ops.specs.Calls.{call_of_row};
ghost use Rattle.af_ops.specs.Endpoints.{are_names};
ghost use Rattle.af_ops.specs.Fields.{listing_of};
ghost use Rattle.af_ops.specs.Methods.{method_of};
ghost use Rattle.af_ops.specs.Replies.{dag_data, fault_data, instance_data, run_data, task_data, version_data};
ghost use Rattle.af_ops.specs.Served.{answer_of, fault_told, left_by};
ghost use Rattle.af_ops.specs.Statuses.{code_of, is_fault_status};
ghost use Rattle.af_ops.specs.Table.{at_dag, at_runs, at_some_dag, endpoint_at, methods_at, on_all, segments_of, spelled};
ghost use Rattle.af_ops.specs.Standings.{history_limit};
ghost use Rattle.af_ops.specs.Verdicts.{Open, Stranger, Lacks, Refuses, judged, verdict};
ghost use Rattle.af_ops.specs.Worked.{asks, at_entries, at_work, changes, dag, ended, ended_later, first_page, first_told, full_later, is_told, is_told_then, later, no_numbers, opening, policy, second, second_told, state_with, tells, trigger, waited_told, waiting_told, with_ended};

/// Who asks for DAGs: a viewer is told all three, who may read one DAG that one, who has no permission the requirement that is
/// lacked. Who may not read a DAG is told the same whether it is there or not; who may is told that it is not.
pub fn readings_by_the_rule()
    ensures viewer { asks opening (codes "vera") (op.ListDags first_page) ≡ tells (compact_text (listing_of (codes "dags") (map dag_data (state_with false).dags) 3)) }
    ensures one { asks opening (codes "bob") (op.ListDags first_page) ≡ tells (compact_text (listing_of (codes "dags") (dag_data (dag (codes "b") false) ∷ []) 1)) }
    ensures denied { asks opening (codes "pat") (op.ListDags first_page) ≡ Lacks (at_some_dag Read) }
    ensures unknown { asks opening (codes "nobody") (op.ListDags first_page) ≡ Lacks (at_some_dag Read) }
    ensures nobody { judged history_limit policy opening (op.ListDags first_page) 0 None ≡ Stranger }
    ensures shown { asks opening (codes "bob") (op.GetDag (codes "b")) ≡ tells (compact_text (dag_data (dag (codes "b") false))) }
    ensures hidden { asks opening (codes "bob") (op.GetDag (codes "a")) ≡ Lacks (at_dag Read) }
    ensures hidden_absent { asks opening (codes "bob") (op.GetDag (codes "nosuch")) ≡ Lacks (at_dag Read) }
    ensures absent { asks opening (codes "vera") (op.GetDag (codes "nosuch")) ≡ Refuses fault.NoSuchDag }
    ensures open { verdict history_limit policy opening None op.Version 0 ≡ Open (Some (compact_text version_data)) }
{}

/// A DAG is paused, and paused again: the first is a change. A denial comes before a bad body, that before an absent DAG, and
/// both before a history that is full.
pub fn changes_by_the_rule()
    ensures paused { asks opening (codes "uma") (op.PauseDag (codes "b") (Ok true)) ≡ changes (compact_text (dag_data (dag (codes "b") true))) (state_with true) }
    ensures left { left_by (asks opening (codes "uma") (op.PauseDag (codes "b") (Ok true))) opening ≡ at_entries 1 true }
    ensures again { asks (at_entries 1 true) (codes "uma") (op.PauseDag (codes "b") (Ok true)) ≡ tells (compact_text (dag_data (dag (codes "b") true))) }
    ensures back { asks (at_entries 1 true) (codes "uma") (op.PauseDag (codes "b") (Ok false)) ≡ changes (compact_text (dag_data (dag (codes "b") false))) (state_with false) }
    ensures denied { asks opening (codes "vera") (op.PauseDag (codes "b") (Err BadBody)) ≡ Lacks (at_dag Edit) }
    ensures bad_body { asks opening (codes "uma") (op.PauseDag (codes "nosuch") (Err BadBody)) ≡ Refuses fault.BadBody }
    ensures bad_member { asks opening (codes "uma") (op.PauseDag (codes "nosuch") (Err (BadMember IsPaused))) ≡ Refuses (fault.BadMember IsPaused) }
    ensures absent { asks opening (codes "uma") (op.PauseDag (codes "nosuch") (Ok true)) ≡ Refuses fault.NoSuchDag }
    ensures last { asks (at_entries 999_999 false) (codes "uma") (op.PauseDag (codes "b") (Ok true)) ≡ changes (compact_text (dag_data (dag (codes "b") true))) (state_with true) }
    ensures full { asks (at_entries 1_000_000 false) (codes "uma") (op.PauseDag (codes "b") (Ok true)) ≡ Refuses fault.HistoryFull }
    ensures full_reads { asks (at_entries 1_000_000 true) (codes "uma") (op.PauseDag (codes "b") (Ok true)) ≡ tells (compact_text (dag_data (dag (codes "b") true))) }
{}

/// What each of them is told.
pub fn messages_by_the_rule()
    ensures one { is_told opening (codes "bob") (op.ListDags first_page) ≡ Some (record { status = status.Ok; version = Some 0; seq = Some 0; body = Some (codes "{\"dags\":[{\"dag_id\":\"b\",\"is_paused\":false,\"max_active_runs\":16,\"next_dagrun\":null,\"schedule_interval\":null}],\"total_entries\":1}") }) }
    ensures paused { is_told opening (codes "uma") (op.PauseDag (codes "b") (Ok true)) ≡ Some (record { status = status.Ok; version = Some 0; seq = Some 1; body = Some (codes "{\"dag_id\":\"b\",\"is_paused\":true,\"max_active_runs\":16,\"next_dagrun\":null,\"schedule_interval\":null}") }) }
    ensures again { is_told (at_entries 1 true) (codes "uma") (op.PauseDag (codes "b") (Ok true)) ≡ Some (record { status = status.Ok; version = Some 0; seq = Some 1; body = Some (codes "{\"dag_id\":\"b\",\"is_paused\":true,\"max_active_runs\":16,\"next_dagrun\":null,\"schedule_interval\":null}") }) }
    ensures denied { is_told opening (codes "bob") (op.GetDag (codes "nosuch")) ≡ Some (record { status = status.Forbidden; version = Some 0; seq = Some 0; body = Some (codes "{\"detail\":\"missing permission DAG:nosuch.can_read\",\"status\":403,\"title\":\"Forbidden\",\"type\":\"about:blank\"}") }) }
    ensures absent { is_told opening (codes "vera") (op.GetDag (codes "nosuch")) ≡ Some (record { status = status.NotFound; version = Some 0; seq = Some 0; body = Some (codes "{\"detail\":\"no such dag: nosuch\",\"status\":404,\"title\":\"Not Found\",\"type\":\"about:blank\"}") }) }
    ensures bad_member { is_told opening (codes "uma") (op.PauseDag (codes "b") (Err (BadMember IsPaused))) ≡ Some (record { status = status.BadRequest; version = Some 0; seq = Some 0; body = Some (codes "{\"detail\":\"bad member: is_paused\",\"status\":400,\"title\":\"Bad Request\",\"type\":\"about:blank\"}") }) }
    ensures nobody { answer_of (op.ListDags first_page) opening.under Stranger ≡ Some (record { status = status.Unauthorized; version = Some 0; seq = Some 0; body = Some (codes "{\"detail\":\"authentication required\",\"status\":401,\"title\":\"Unauthorized\",\"type\":\"about:blank\"}") }) }
    ensures version { answer_of op.Version opening.under (verdict history_limit policy opening None op.Version 0) ≡ Some (record { status = status.Ok; version = None; seq = None; body = Some (codes "{\"git_version\":null,\"version\":\"afplane 1\"}") }) }
    ensures memory { fault_told (op.ListDags first_page) opening.under (why.Op fault.OutOfMemory) ≡ None }
{}

/// Bodies of a pause: the last of a repeated member stays, null counts as absent, other members are ignored.
pub fn bodies_by_the_rule()
    ensures paused { pause_in (codes "{\"is_paused\":true}") ≡ Ok true }
    ensures others { pause_in (codes " {\"tags\":[1],\"is_paused\":true,\"is_paused\":false} ") ≡ Ok false }
    ensures cut { pause_in (codes "{") ≡ Err BadBody }
    ensures empty { pause_in [] ≡ Err BadBody }
    ensures list { pause_in (codes "[true]") ≡ Err BadBody }
    ensures absent { pause_in (codes "{}") ≡ Err (BadMember IsPaused) }
    ensures nothing { pause_in (codes "{\"is_paused\":null}") ≡ Err (BadMember IsPaused) }
    ensures text { pause_in (codes "{\"is_paused\":\"true\"}") ≡ Err (BadMember IsPaused) }
{}

/// Requests by the table: methods are named to the letter, and a part that is no id names nothing.
pub fn routes_by_the_rule()
    ensures get { method_of (codes "GET") ≡ Some Get }
    ensures small { method_of (codes "get") ≡ None }
    ensures head { method_of (codes "HEAD") ≡ None }
    ensures post { endpoint_at Post template.Dag ≡ None }
    ensures methods { methods_at template.Dag ≡ record { get = true; post = false; patch = true; delete = false } }
    ensures path { spelled (segments_of template.Dag) ≡ codes "/api/v1/dags/{dag_id}" }
    ensures one { call_of_row endpoint.GetDag (codes "b" ∷ []) [] (codes "{") ≡ Some (call.State (op.GetDag (codes "b"))) }
    ensures body { call_of_row endpoint.PauseDag (codes "b" ∷ []) [] (codes "{") ≡ Some (call.State (op.PauseDag (codes "b") (Err BadBody))) }
    ensures no_id { call_of_row endpoint.GetDag (codes "a b" ∷ []) [] [] ≡ None }
    ensures each_dag { call_of_row endpoint.PauseDag (codes "~" ∷ []) [] (codes "{}") ≡ None }
    ensures all { call_of_row endpoint.ListRuns (codes "~" ∷ []) [] [] ≡ Some (call.State (op.ListRuns None (window_of []))) }
    ensures one_of_all { call_of_row endpoint.ListRuns (codes "b" ∷ []) [] [] ≡ Some (call.State (op.ListRuns (Some (codes "b")) (window_of []))) }
    ensures all_listed { are_names (Some Get) template.Runs (codes "~" ∷ []) ≡ true }
    ensures none_triggered { are_names (Some Post) template.Runs (codes "~" ∷ []) ≡ false }
    ensures no_method { are_names None template.Runs (codes "~" ∷ []) ≡ false }
    ensures run { call_of_row endpoint.GetRun (codes "b" ∷ codes "r~1" ∷ []) [] [] ≡ Some (call.State (op.GetRun (codes "b") (codes "r~1"))) }
    ensures no_run { call_of_row endpoint.GetRun (codes "b" ∷ codes "~" ∷ []) [] [] ≡ None }
    ensures run_path { spelled (segments_of template.Run) ≡ codes "/api/v1/dags/{dag_id}/dagRuns/{dag_run_id}" }
    ensures run_methods { methods_at template.Runs ≡ record { get = true; post = true; patch = false; delete = false } }
    ensures no_part { call_of_row endpoint.GetDag ([] ∷ []) [] [] ≡ None }
{}

/// Bodies of faults, and the numbers of the statuses.
pub fn faults_by_the_rule()
    ensures memory { compact_text (fault_data status.Unavailable (codes "out of memory")) ≡ codes "{\"detail\":\"out of memory\",\"status\":503,\"title\":\"Service Unavailable\",\"type\":\"about:blank\"}" }
    ensures cut_off { compact_text (fault_data status.BadRequest (codes "incomplete request")) ≡ codes "{\"detail\":\"incomplete request\",\"status\":400,\"title\":\"Bad Request\",\"type\":\"about:blank\"}" }
    ensures numbers { map code_of (status.Ok ∷ status.NoContent ∷ status.BadRequest ∷ status.Unauthorized ∷ status.Forbidden ∷ status.NotFound ∷ status.MethodNotAllowed ∷ status.Conflict ∷ status.ContentTooLarge ∷ status.HeadTooLarge ∷ status.InternalError ∷ status.NotImplemented ∷ status.Unavailable ∷ status.InsufficientStorage ∷ []) ≡ 200 ∷ 204 ∷ 400 ∷ 401 ∷ 403 ∷ 404 ∷ 405 ∷ 409 ∷ 413 ∷ 431 ∷ 500 ∷ 501 ∷ 503 ∷ 507 ∷ [] }
    ensures no_fault { is_fault_status status.NoContent ≡ false }
    ensures first_fault { is_fault_status status.BadRequest ≡ true }
{}

/// Who may read all DAGs, and the runs of one: of all runs, those of that one are listed and counted. To read the runs of another DAG, or to
/// edit those of that one, a requirement is lacked, whether the run is there or not.
pub fn own_runs_by_the_rule()
    ensures dags { asks later (codes "sue") (op.ListDags first_page) ≡ asks later (codes "vera") (op.ListDags first_page) }
    ensures all { asks later (codes "sue") (op.ListRuns None first_page) ≡ tells (compact_text (listing_of (codes "dag_runs") (run_data second ∷ []) 1)) }
    ensures one { asks later (codes "sue") (op.ListRuns (Some (codes "b")) first_page) ≡ tells (compact_text (listing_of (codes "dag_runs") (run_data second ∷ []) 1)) }
    ensures other { asks later (codes "sue") (op.ListRuns (Some (codes "a")) first_page) ≡ Lacks (at_runs Read) }
    ensures other_run { asks later (codes "sue") (op.GetRun (codes "a") (codes "nosuch")) ≡ Lacks (at_runs Read) }
    ensures not_triggered { asks later (codes "sue") (op.TriggerRun (codes "a") (Err BadBody)) ≡ Lacks (at_dag Edit) }
    ensures not_marked { asks later (codes "sue") (op.MarkRun (codes "b") (codes "r2") (Err BadBody)) ≡ Lacks (at_runs Edit) }
    ensures may_trigger { asks later (codes "sue") (op.TriggerRun (codes "b") (Err BadBody)) ≡ Refuses fault.BadBody }
{}

/// Who asks for runs: who may read one DAG and runs is told the runs of that one alone, of all too.
pub fn runs_by_the_rule()
    ensures all { asks later (codes "ron") (op.ListRuns None first_page) ≡ tells (compact_text (listing_of (codes "dag_runs") (run_data second ∷ []) 1)) }
    ensures one { asks later (codes "ron") (op.ListRuns (Some (codes "b")) first_page) ≡ tells (compact_text (listing_of (codes "dag_runs") (run_data second ∷ []) 1)) }
    ensures hidden { asks later (codes "ron") (op.ListRuns (Some (codes "a")) first_page) ≡ Lacks (at_dag Read) }
    ensures no_runs { asks later (codes "bob") (op.ListRuns None first_page) ≡ Lacks (on_all Read DagRuns) }
    ensures no_dags { asks later (codes "pat") (op.ListRuns None first_page) ≡ Lacks (at_some_dag Read) }
    ensures absent_dag { asks later (codes "vera") (op.ListRuns (Some (codes "nosuch")) first_page) ≡ Refuses fault.NoSuchDag }
    ensures shown { asks later (codes "ron") (op.GetRun (codes "b") (codes "r2")) ≡ tells (compact_text (run_data second)) }
    ensures absent { asks later (codes "ron") (op.GetRun (codes "b") (codes "r1")) ≡ Refuses fault.NoSuchRun }
    ensures not_created { asks later (codes "vera") (op.TriggerRun (codes "b") (Err BadBody)) ≡ Lacks (at_dag Edit) }
    ensures bad_body { asks later (codes "uma") (op.TriggerRun (codes "nosuch") (Err BadBody)) ≡ Refuses fault.BadBody }
    ensures bad_member { asks later (codes "uma") (op.TriggerRun (codes "nosuch") (Err (BadMember Conf))) ≡ Refuses (fault.BadMember Conf) }
    ensures no_dag { asks later (codes "uma") (op.TriggerRun (codes "nosuch") (Ok (trigger None None))) ≡ Refuses fault.NoSuchDag }
    ensures exists { asks later (codes "uma") (op.TriggerRun (codes "b") (Ok (trigger (Some (codes "r2")) (Some 2)))) ≡ Refuses (fault.RunExists 2) }
    ensures taken { asks later (codes "uma") (op.TriggerRun (codes "b") (Ok (trigger (Some (codes "r3")) (Some 2)))) ≡ Refuses (fault.DateTaken 2) }
    ensures no_number { asks no_numbers (codes "uma") (op.TriggerRun (codes "b") (Ok (trigger None None))) ≡ Refuses fault.TooMany }
    ensures full { asks (at_entries 1_000_000 false) (codes "uma") (op.TriggerRun (codes "b") (Ok (trigger None None))) ≡ Refuses fault.HistoryFull }
    ensures full_taken { asks full_later (codes "uma") (op.TriggerRun (codes "b") (Ok (trigger (Some (codes "r2")) (Some 2)))) ≡ Refuses (fault.RunExists 2) }
{}

/// What is told of runs.
pub fn run_messages_by_the_rule()
    ensures triggered { is_told_then opening (codes "uma") (op.TriggerRun (codes "b") (Ok (trigger None None))) ≡ Some (record { status = status.Ok; version = Some 0; seq = Some 1; body = Some (codes "{\"dag_id\":\"b\",\"dag_run_id\":\"manual__2024-01-01T00:00:00.000001+00:00\",\"data_interval_end\":\"2024-01-01T00:00:00.000001+00:00\",\"data_interval_start\":\"2024-01-01T00:00:00.000001+00:00\",\"end_date\":null,\"logical_date\":\"2024-01-01T00:00:00.000001+00:00\",\"run_type\":\"manual\",\"start_date\":null,\"state\":\"queued\"}") }) }
    ensures exists { is_told later (codes "uma") (op.TriggerRun (codes "b") (Ok (trigger (Some (codes "r2")) None))) ≡ Some (record { status = status.Conflict; version = Some 0; seq = Some 2; body = Some (codes "{\"detail\":\"run exists: r2\",\"status\":409,\"title\":\"Conflict\",\"type\":\"about:blank\"}") }) }
    ensures taken { is_told later (codes "uma") (op.TriggerRun (codes "b") (Ok (trigger (Some (codes "x")) (Some 2)))) ≡ Some (record { status = status.Conflict; version = Some 0; seq = Some 2; body = Some (codes "{\"detail\":\"date taken: 1970-01-01T00:00:00.000002+00:00\",\"status\":409,\"title\":\"Conflict\",\"type\":\"about:blank\"}") }) }
    ensures listed { is_told later (codes "ron") (op.ListRuns None first_page) ≡ Some (record { status = status.Ok; version = Some 0; seq = Some 2; body = Some (codes "{\"dag_runs\":[{\"dag_id\":\"b\",\"dag_run_id\":\"r2\",\"data_interval_end\":\"1970-01-01T00:00:00.000002+00:00\",\"data_interval_start\":\"1970-01-01T00:00:00.000002+00:00\",\"end_date\":null,\"logical_date\":\"1970-01-01T00:00:00.000002+00:00\",\"run_type\":\"manual\",\"start_date\":null,\"state\":\"queued\"}],\"total_entries\":1}") }) }
    ensures too_many { is_told no_numbers (codes "uma") (op.TriggerRun (codes "b") (Ok (trigger None None))) ≡ Some (record { status = status.Conflict; version = Some 0; seq = Some 0; body = Some (codes "{\"detail\":\"too many\",\"status\":409,\"title\":\"Conflict\",\"type\":\"about:blank\"}") }) }
    ensures full { is_told (at_entries 1_000_000 false) (codes "uma") (op.TriggerRun (codes "b") (Ok (trigger None None))) ≡ Some (record { status = status.InsufficientStorage; version = Some 0; seq = Some 1_000_000; body = Some (codes "{\"detail\":\"history full\",\"status\":507,\"title\":\"Insufficient Storage\",\"type\":\"about:blank\"}") }) }
    ensures absent { is_told later (codes "vera") (op.GetRun (codes "b") (codes "r1")) ≡ Some (record { status = status.NotFound; version = Some 0; seq = Some 2; body = Some (codes "{\"detail\":\"no such run: r1\",\"status\":404,\"title\":\"Not Found\",\"type\":\"about:blank\"}") }) }
    ensures denied { is_told later (codes "bob") (op.GetRun (codes "b") (codes "r2")) ≡ Some (record { status = status.Forbidden; version = Some 0; seq = Some 2; body = Some (codes "{\"detail\":\"missing permission DAG Runs.can_read\",\"status\":403,\"title\":\"Forbidden\",\"type\":\"about:blank\"}") }) }
{}

/// Bodies of a trigger: the first member of another kind or value is told, in the order of id, date and `conf`; `execution_date` is
/// looked at where `logical_date` is absent or null, and there alone.
pub fn triggers_by_the_rule()
    ensures empty { trigger_in (codes "{}") ≡ Ok (trigger None None) }
    ensures given { trigger_in (codes "{\"conf\":{},\"dag_run_id\":\"x\",\"logical_date\":null}") ≡ Ok (trigger (Some (codes "x")) None) }
    ensures list { trigger_in (codes "[]") ≡ Err BadBody }
    ensures each { trigger_in (codes "{\"conf\":1,\"dag_run_id\":\"~\",\"logical_date\":1}") ≡ Err (BadMember DagRunId) }
    ensures date { trigger_in (codes "{\"conf\":1,\"execution_date\":1,\"logical_date\":1}") ≡ Err (BadMember LogicalDate) }
    ensures older_date { trigger_in (codes "{\"conf\":1,\"execution_date\":1}") ≡ Err (BadMember ExecutionDate) }
    ensures older_dated { trigger_in (codes "{\"logical_date\":null,\"execution_date\":\"1970-01-01T00:00:00.000002Z\"}") ≡ trigger_in (codes "{\"execution_date\":\"1970-01-01T00:00:00.000002Z\"}") }
    ensures newer_dated { trigger_in (codes "{\"logical_date\":\"1970-01-01T00:00:00.000002Z\",\"execution_date\":1}") ≡ trigger_in (codes "{\"logical_date\":\"1970-01-01T00:00:00.000002Z\"}") }
    ensures null_date { trigger_in (codes "{\"logical_date\":null,\"execution_date\":1}") ≡ Err (BadMember ExecutionDate) }
    ensures conf { trigger_in (codes "{\"conf\":{\"a\":1}}") ≡ Err (BadMember Conf) }
{}

/// Who asks for the tasks of a DAG: a viewer is told them in the order of the definition, each with those that wait for it, once. A
/// denial comes before an absence.
pub fn tasks_by_the_rule()
    ensures path { spelled (segments_of template.Tasks) ≡ codes "/api/v1/dags/{dag_id}/tasks" }
    ensures row { call_of_row endpoint.ListTasks (codes "f" ∷ []) [] (codes "{") ≡ Some (call.State (op.ListTasks (codes "f"))) }
    ensures each_dag { call_of_row endpoint.ListTasks (codes "~" ∷ []) [] [] ≡ None }
    ensures listed { asks at_work (codes "vera") (op.ListTasks (codes "f")) ≡ tells (compact_text (listing_of (codes "tasks") (task_data waiting_told ∷ task_data waited_told ∷ []) 2)) }
    ensures no_instances { asks opening (codes "bob") (op.ListTasks (codes "b")) ≡ Lacks (on_all Read TaskInstances) }
    ensures hidden { asks opening (codes "bob") (op.ListTasks (codes "nosuch")) ≡ Lacks (at_dag Read) }
    ensures absent { asks opening (codes "vera") (op.ListTasks (codes "nosuch")) ≡ Refuses fault.NoSuchDag }
    ensures told { is_told at_work (codes "vera") (op.ListTasks (codes "f")) ≡ Some (record { status = status.Ok; version = Some 0; seq = Some 3; body = Some (codes "{\"tasks\":[{\"downstream_task_ids\":[],\"pool\":\"slow \\\"lane\\\"\",\"pool_slots\":3,\"priority_weight\":-7,\"retries\":2,\"task_id\":\"u\",\"trigger_rule\":\"one_failed\"},{\"downstream_task_ids\":[\"u\"],\"pool\":\"default_pool\",\"pool_slots\":1,\"priority_weight\":1,\"retries\":0,\"task_id\":\"t\",\"trigger_rule\":\"all_success\"}],\"total_entries\":2}") }) }
{}

/// Paths of instances, and their parts: each is a name of its kind.
pub fn instance_routes_by_the_rule()
    ensures listed { call_of_row endpoint.ListInstances (codes "b" ∷ codes "r~1" ∷ []) [] (codes "{") ≡ Some (call.State (op.ListInstances (codes "b") (codes "r~1") (window_of []))) }
    ensures shown { call_of_row endpoint.GetInstance (codes "b" ∷ codes "r~1" ∷ codes "t-1" ∷ []) [] [] ≡ Some (call.State (op.GetInstance (codes "b") (codes "r~1") (codes "t-1"))) }
    ensures no_task { call_of_row endpoint.GetInstance (codes "b" ∷ codes "r" ∷ codes "t~1" ∷ []) [] [] ≡ None }
    ensures no_part { call_of_row endpoint.GetInstance (codes "b" ∷ codes "r" ∷ []) [] [] ≡ None }
    ensures each_run { call_of_row endpoint.ListInstances (codes "b" ∷ codes "~" ∷ []) [] [] ≡ None }
    ensures each_dag { call_of_row endpoint.ListInstances (codes "~" ∷ codes "r" ∷ []) [] [] ≡ None }
    ensures names { are_names (Some Get) template.Instance (codes "b" ∷ codes "r" ∷ codes "t" ∷ []) ≡ true }
    ensures no_names { are_names None template.Instance (codes "b" ∷ codes "r" ∷ codes "t~1" ∷ []) ≡ false }
    ensures path { spelled (segments_of template.Instances) ≡ codes "/api/v1/dags/{dag_id}/dagRuns/{dag_run_id}/taskInstances" }
    ensures one_path { spelled (segments_of template.Instance) ≡ codes "/api/v1/dags/{dag_id}/dagRuns/{dag_run_id}/taskInstances/{task_id}" }
    ensures methods { methods_at template.Instance ≡ record { get = true; post = false; patch = false; delete = false } }
{}

/// Who asks for instances: a viewer is told those of a run in the order of its DAG's tasks. A denial comes before an absence; of DAG,
/// run and task the first that is not there is told.
pub fn instances_by_the_rule()
    ensures listed { asks at_work (codes "vera") (op.ListInstances (codes "f") (codes "r") first_page) ≡ tells (compact_text (listing_of (codes "task_instances") (instance_data first_told ∷ instance_data second_told ∷ []) 2)) }
    ensures shown { asks at_work (codes "vera") (op.GetInstance (codes "f") (codes "r") (codes "t")) ≡ tells (compact_text (instance_data second_told)) }
    ensures no_instances { asks later (codes "ron") (op.ListInstances (codes "b") (codes "r2") first_page) ≡ Lacks (on_all Read TaskInstances) }
    ensures no_runs { asks later (codes "bob") (op.GetInstance (codes "b") (codes "r2") (codes "t")) ≡ Lacks (at_runs Read) }
    ensures hidden { asks later (codes "ron") (op.GetInstance (codes "nosuch") (codes "r2") (codes "t")) ≡ Lacks (at_dag Read) }
    ensures no_dag { asks at_work (codes "vera") (op.GetInstance (codes "b") (codes "r2") (codes "x")) ≡ Refuses fault.NoSuchDag }
    ensures no_run { asks at_work (codes "vera") (op.GetInstance (codes "f") (codes "r2") (codes "x")) ≡ Refuses fault.NoSuchRun }
    ensures no_task { asks at_work (codes "vera") (op.GetInstance (codes "f") (codes "r") (codes "x")) ≡ Refuses fault.NoSuchTask }
    ensures no_run_listed { asks at_work (codes "vera") (op.ListInstances (codes "f") (codes "r2") first_page) ≡ Refuses fault.NoSuchRun }
{}

/// What is told of instances.
pub fn instance_messages_by_the_rule()
    ensures shown { is_told at_work (codes "vera") (op.GetInstance (codes "f") (codes "r") (codes "u")) ≡ Some (record { status = status.Ok; version = Some 0; seq = Some 3; body = Some (codes "{\"dag_id\":\"f\",\"dag_run_id\":\"r\",\"end_date\":null,\"pool\":\"slow \\\"lane\\\"\",\"pool_slots\":3,\"priority_weight\":-7,\"start_date\":\"1970-01-01T00:00:00.000005+00:00\",\"state\":\"running\",\"task_id\":\"u\",\"try_number\":2}") }) }
    ensures listed { is_told at_work (codes "vera") (op.ListInstances (codes "f") (codes "r") first_page) ≡ Some (record { status = status.Ok; version = Some 0; seq = Some 3; body = Some (codes "{\"task_instances\":[{\"dag_id\":\"f\",\"dag_run_id\":\"r\",\"end_date\":null,\"pool\":\"slow \\\"lane\\\"\",\"pool_slots\":3,\"priority_weight\":-7,\"start_date\":\"1970-01-01T00:00:00.000005+00:00\",\"state\":\"running\",\"task_id\":\"u\",\"try_number\":2},{\"dag_id\":\"f\",\"dag_run_id\":\"r\",\"end_date\":null,\"pool\":\"default_pool\",\"pool_slots\":1,\"priority_weight\":1,\"start_date\":null,\"state\":null,\"task_id\":\"t\",\"try_number\":0}],\"total_entries\":2}") }) }
    ensures absent { is_told at_work (codes "vera") (op.GetInstance (codes "f") (codes "r") (codes "x")) ≡ Some (record { status = status.NotFound; version = Some 0; seq = Some 3; body = Some (codes "{\"detail\":\"no such task: x\",\"status\":404,\"title\":\"Not Found\",\"type\":\"about:blank\"}") }) }
    ensures no_run { is_told at_work (codes "vera") (op.GetInstance (codes "f") (codes "r2") (codes "x")) ≡ Some (record { status = status.NotFound; version = Some 0; seq = Some 3; body = Some (codes "{\"detail\":\"no such run: r2\",\"status\":404,\"title\":\"Not Found\",\"type\":\"about:blank\"}") }) }
    ensures denied { is_told later (codes "ron") (op.ListInstances (codes "b") (codes "r2") first_page) ≡ Some (record { status = status.Forbidden; version = Some 0; seq = Some 2; body = Some (codes "{\"detail\":\"missing permission Task Instances.can_read\",\"status\":403,\"title\":\"Forbidden\",\"type\":\"about:blank\"}") }) }
{}

/// Who marks a run: one who may edit its DAG and runs. The first time is a change, and marking what stands is none; a denial comes
/// before a bad body, that before an absence, and all before a history that is full.
pub fn marks_by_the_rule()
    ensures success { asks later (codes "uma") (op.MarkRun (codes "b") (codes "r2") (Ok mark.Success)) ≡ changes (compact_text (run_data ended)) with_ended }
    ensures again { asks ended_later (codes "uma") (op.MarkRun (codes "b") (codes "r2") (Ok mark.Success)) ≡ tells (compact_text (run_data ended)) }
    ensures queued { asks later (codes "uma") (op.MarkRun (codes "b") (codes "r2") (Ok mark.Queued)) ≡ tells (compact_text (run_data second)) }
    ensures denied { asks later (codes "vera") (op.MarkRun (codes "nosuch") (codes "r2") (Err BadBody)) ≡ Lacks (at_dag Edit) }
    ensures bad_body { asks later (codes "uma") (op.MarkRun (codes "nosuch") (codes "r2") (Err BadBody)) ≡ Refuses fault.BadBody }
    ensures bad_member { asks later (codes "uma") (op.MarkRun (codes "nosuch") (codes "r2") (Err (BadMember State))) ≡ Refuses (fault.BadMember State) }
    ensures no_dag { asks later (codes "uma") (op.MarkRun (codes "nosuch") (codes "r2") (Ok mark.Failed)) ≡ Refuses fault.NoSuchDag }
    ensures no_run { asks later (codes "uma") (op.MarkRun (codes "b") (codes "r1") (Ok mark.Failed)) ≡ Refuses fault.NoSuchRun }
    ensures full { asks full_later (codes "uma") (op.MarkRun (codes "b") (codes "r2") (Ok mark.Success)) ≡ Refuses fault.HistoryFull }
    ensures full_stands { asks full_later (codes "uma") (op.MarkRun (codes "b") (codes "r2") (Ok mark.Queued)) ≡ tells (compact_text (run_data second)) }
    ensures row { call_of_row endpoint.MarkRun (codes "b" ∷ codes "r~1" ∷ []) [] (codes "{") ≡ Some (call.State (op.MarkRun (codes "b") (codes "r~1") (Err BadBody))) }
    ensures no_name { call_of_row endpoint.MarkRun (codes "~" ∷ codes "r" ∷ []) [] [] ≡ None }
    ensures methods { methods_at template.Run ≡ record { get = true; post = false; patch = true; delete = true } }
{}

/// What is told of marks, and their bodies: a state that a run is put into, which `running` is not.
pub fn mark_messages_by_the_rule()
    ensures told { is_told later (codes "uma") (op.MarkRun (codes "b") (codes "r2") (Ok mark.Success)) ≡ Some (record { status = status.Ok; version = Some 0; seq = Some 3; body = Some (codes "{\"dag_id\":\"b\",\"dag_run_id\":\"r2\",\"data_interval_end\":\"1970-01-01T00:00:00.000002+00:00\",\"data_interval_start\":\"1970-01-01T00:00:00.000002+00:00\",\"end_date\":\"1970-01-01T00:00:00+00:00\",\"logical_date\":\"1970-01-01T00:00:00.000002+00:00\",\"run_type\":\"manual\",\"start_date\":null,\"state\":\"success\"}") }) }
    ensures denied { is_told later (codes "bob") (op.MarkRun (codes "b") (codes "r2") (Ok mark.Success)) ≡ Some (record { status = status.Forbidden; version = Some 0; seq = Some 2; body = Some (codes "{\"detail\":\"missing permission DAG:b.can_edit\",\"status\":403,\"title\":\"Forbidden\",\"type\":\"about:blank\"}") }) }
    ensures bad_member { is_told later (codes "uma") (op.MarkRun (codes "b") (codes "r2") (Err (BadMember State))) ≡ Some (record { status = status.BadRequest; version = Some 0; seq = Some 2; body = Some (codes "{\"detail\":\"bad member: state\",\"status\":400,\"title\":\"Bad Request\",\"type\":\"about:blank\"}") }) }
    ensures absent { is_told later (codes "uma") (op.MarkRun (codes "b") (codes "r1") (Ok mark.Success)) ≡ Some (record { status = status.NotFound; version = Some 0; seq = Some 2; body = Some (codes "{\"detail\":\"no such run: r1\",\"status\":404,\"title\":\"Not Found\",\"type\":\"about:blank\"}") }) }
    ensures failed { mark_in (codes "{\"state\":\"queued\",\"state\":\"failed\"}") ≡ Ok mark.Failed }
    ensures running { mark_in (codes "{\"state\":\"running\"}") ≡ Err (BadMember State) }
    ensures no_state { mark_in (codes "{\"state\":null}") ≡ Err (BadMember State) }
    ensures truth { mark_in (codes "{\"state\":true}") ≡ Err (BadMember State) }
    ensures list { mark_in (codes "[\"failed\"]") ≡ Err BadBody }
{}
