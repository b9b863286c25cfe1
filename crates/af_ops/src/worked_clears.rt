//! Worked values: what the definitions give for those who clear instances and delete runs, computed by the checker.
ghost use Rattle.std.specs.Prelude.{◌≡◌, [], ◌∷◌, codes, Err, Ok, None, Some, true, false};
ghost use Rattle.af_ops.specs.declared.answer.OpFault.TheVariants as fault;
ghost use Rattle.af_ops.specs.declared.body_fault.BodyFault.TheVariants.{BadBody, BadMember};
ghost use Rattle.af_ops.specs.declared.body_fault.Member.TheVariants.{DagRunId, DryRun, EndDate, OnlyFailed, StartDate, TaskIds};
ghost use Rattle.af_ops.specs.declared.endpoint.Endpoint.TheVariants as endpoint;
ghost use Rattle.af_ops.specs.declared.method.Method.TheVariants.{Delete, Post};
ghost use Rattle.af_ops.specs.declared.op.Op.TheVariants as op;
ghost use Rattle.af_ops.specs.declared.path_template.PathTemplate.TheVariants as template;
ghost use Rattle.af_ops.specs.declared.status.Status.TheVariants as status;
ghost use Rattle.af_role.specs.declared.action.Action.TheVariants.{Edit};
ghost use Rattle.serde_json.specs.Written.{compact_text};
ghost use Rattle.af_ops.specs.Bodies.{clear_in, clear_run_in};
ghost use Rattle.af_ops.specs.declared.call.Call.TheVariants as call;
ghost use Rattle.af_ops.specs.Calls.{call_of_row};
ghost use Rattle.af_ops.specs.Endpoints.{are_names};
ghost use Rattle.af_ops.specs.Fields.{list_of};
ghost use Rattle.af_ops.specs.Replies.{cleared_data};
ghost use Rattle.af_ops.specs.Table.{at_dag, endpoint_at, methods_at, segments_of, spelled};
ghost use Rattle.af_ops.specs.Verdicts.{Changes, Lacks, Refuses};
ghost use Rattle.af_ops.specs.Worked.{asks, at_work, changes, clear, cleared_half, cleared_later, first_cleared, full_at_work, full_later, is_told, later, second_cleared, tells, with_cleared, without_second};

/// Who clears instances: one who may edit the DAG and instances. A dry run only tells them, and where all stand so already nothing
/// changes. A denial comes before a bad body, that before an absent DAG, run and task, in this order, and all before a history that
/// is full.
pub fn clears_by_the_rule()
    ensures told { asks at_work (codes "uma") (op.ClearInstances (codes "f") (Ok (clear true false None None))) ≡ tells (compact_text (list_of (codes "task_instances") (cleared_data first_cleared ∷ cleared_data second_cleared ∷ []))) }
    ensures done { asks at_work (codes "uma") (op.ClearInstances (codes "f") (Ok (clear false false None None))) ≡ changes (compact_text (list_of (codes "task_instances") (cleared_data first_cleared ∷ cleared_data second_cleared ∷ []))) with_cleared }
    ensures again { asks cleared_later (codes "uma") (op.ClearRun (codes "f") (codes "r") (Ok false)) ≡ tells (compact_text (list_of (codes "task_instances") (cleared_data (record { run = cleared_half; task_id = codes "u" }) ∷ cleared_data (record { run = cleared_half; task_id = codes "t" }) ∷ []))) }
    ensures run { asks at_work (codes "uma") (op.ClearRun (codes "f") (codes "r") (Ok false)) ≡ changes (compact_text (list_of (codes "task_instances") (cleared_data first_cleared ∷ cleared_data second_cleared ∷ []))) with_cleared }
    ensures none_failed { asks at_work (codes "uma") (op.ClearInstances (codes "f") (Ok (clear false true None None))) ≡ tells (compact_text (list_of (codes "task_instances") [])) }
    ensures one { asks at_work (codes "uma") (op.ClearInstances (codes "f") (Ok (clear false false (Some (codes "t" ∷ codes "t" ∷ [])) (Some (codes "r"))))) ≡ tells (compact_text (list_of (codes "task_instances") (cleared_data second_cleared ∷ []))) }
    ensures no_tasks { asks at_work (codes "uma") (op.ClearInstances (codes "f") (Ok (clear false false (Some []) None))) ≡ tells (compact_text (list_of (codes "task_instances") [])) }
    ensures denied { asks later (codes "vera") (op.ClearInstances (codes "nosuch") (Err BadBody)) ≡ Lacks (at_dag Edit) }
    ensures bad_body { asks later (codes "uma") (op.ClearInstances (codes "nosuch") (Err BadBody)) ≡ Refuses fault.BadBody }
    ensures bad_member { asks later (codes "uma") (op.ClearRun (codes "nosuch") (codes "r") (Err (BadMember DryRun))) ≡ Refuses (fault.BadMember DryRun) }
    ensures no_dag { asks at_work (codes "uma") (op.ClearInstances (codes "b") (Ok (clear true true (Some (codes "x" ∷ [])) (Some (codes "r2"))))) ≡ Refuses fault.NoSuchDag }
    ensures no_run { asks at_work (codes "uma") (op.ClearInstances (codes "f") (Ok (clear true true (Some (codes "x" ∷ [])) (Some (codes "r2"))))) ≡ Refuses fault.NoSuchRun }
    ensures no_task { asks at_work (codes "uma") (op.ClearInstances (codes "f") (Ok (clear true true (Some (codes "t" ∷ codes "x" ∷ codes "y" ∷ [])) (Some (codes "r"))))) ≡ Refuses (fault.NoSuchTaskAt 1) }
    ensures no_run_cleared { asks at_work (codes "uma") (op.ClearRun (codes "f") (codes "r2") (Ok true)) ≡ Refuses fault.NoSuchRun }
    ensures full { asks full_at_work (codes "uma") (op.ClearRun (codes "f") (codes "r") (Ok false)) ≡ Refuses fault.HistoryFull }
    ensures full_told { asks full_at_work (codes "uma") (op.ClearInstances (codes "f") (Ok (clear false true None None))) ≡ tells (compact_text (list_of (codes "task_instances") [])) }
{}

/// What is told of clears.
pub fn clear_messages_by_the_rule()
    ensures told { is_told at_work (codes "uma") (op.ClearInstances (codes "f") (Ok (clear true false None None))) ≡ Some (record { status = status.Ok; version = Some 0; seq = Some 3; body = Some (codes "{\"task_instances\":[{\"dag_id\":\"f\",\"dag_run_id\":\"r\",\"logical_date\":\"1970-01-01T00:00:00.000003+00:00\",\"task_id\":\"u\"},{\"dag_id\":\"f\",\"dag_run_id\":\"r\",\"logical_date\":\"1970-01-01T00:00:00.000003+00:00\",\"task_id\":\"t\"}]}") }) }
    ensures none { is_told at_work (codes "uma") (op.ClearInstances (codes "f") (Ok (clear false true None None))) ≡ Some (record { status = status.Ok; version = Some 0; seq = Some 3; body = Some (codes "{\"task_instances\":[]}") }) }
    ensures denied { is_told later (codes "ron") (op.ClearRun (codes "b") (codes "r2") (Ok true)) ≡ Some (record { status = status.Forbidden; version = Some 0; seq = Some 2; body = Some (codes "{\"detail\":\"missing permission DAG:b.can_edit\",\"status\":403,\"title\":\"Forbidden\",\"type\":\"about:blank\"}") }) }
    ensures no_run { is_told at_work (codes "uma") (op.ClearInstances (codes "f") (Ok (clear true true None (Some (codes "r2"))))) ≡ Some (record { status = status.NotFound; version = Some 0; seq = Some 3; body = Some (codes "{\"detail\":\"no such run: r2\",\"status\":404,\"title\":\"Not Found\",\"type\":\"about:blank\"}") }) }
    ensures no_task { is_told at_work (codes "uma") (op.ClearInstances (codes "f") (Ok (clear true true (Some (codes "t" ∷ codes "x" ∷ codes "y" ∷ [])) None))) ≡ Some (record { status = status.NotFound; version = Some 0; seq = Some 3; body = Some (codes "{\"detail\":\"no such task: x\",\"status\":404,\"title\":\"Not Found\",\"type\":\"about:blank\"}") }) }
{}

/// Bodies of clears, and their paths: absent, a clear is a dry run of the failed instances; each id of a task is one.
pub fn clear_bodies_by_the_rule()
    ensures empty { clear_in (codes "{}") ≡ Ok (clear true true None None) }
    ensures each { clear_in (codes "{\"dag_run_id\":\"r\",\"dry_run\":false,\"only_failed\":false,\"task_ids\":[\"t\",\"u\",\"t\"],\"start_date\":null}") ≡ Ok (clear false false (Some (codes "t" ∷ codes "u" ∷ codes "t" ∷ [])) (Some (codes "r"))) }
    ensures no_ids { clear_in (codes "{\"task_ids\":[]}") ≡ Ok (clear true true (Some []) None) }
    ensures first { clear_in (codes "{\"dag_run_id\":1,\"only_failed\":1,\"task_ids\":1}") ≡ Err (BadMember OnlyFailed) }
    ensures no_list { clear_in (codes "{\"dag_run_id\":1,\"task_ids\":\"t\"}") ≡ Err (BadMember TaskIds) }
    ensures no_id { clear_in (codes "{\"dag_run_id\":1,\"task_ids\":[\"t\",\"t~\"]}") ≡ Err (BadMember TaskIds) }
    ensures null_id { clear_in (codes "{\"task_ids\":[null]}") ≡ Err (BadMember TaskIds) }
    ensures run { clear_in (codes "{\"dag_run_id\":\"~\",\"start_date\":1}") ≡ Err (BadMember DagRunId) }
    ensures from { clear_in (codes "{\"start_date\":1,\"end_date\":1}") ≡ Err (BadMember StartDate) }
    ensures until { clear_in (codes "{\"end_date\":1}") ≡ Err (BadMember EndDate) }
    ensures run_alone { clear_run_in (codes "{\"only_failed\":1}") ≡ Ok true }
    ensures run_done { clear_run_in (codes "{\"dry_run\":false}") ≡ Ok false }
    ensures run_text { clear_run_in (codes "{\"dry_run\":\"false\"}") ≡ Err (BadMember DryRun) }
    ensures list { clear_run_in (codes "[]") ≡ Err BadBody }
    ensures row { call_of_row endpoint.ClearRun (codes "b" ∷ codes "r~1" ∷ []) [] (codes "{") ≡ Some (call.State (op.ClearRun (codes "b") (codes "r~1") (Err BadBody))) }
    ensures dag_row { call_of_row endpoint.ClearInstances (codes "b" ∷ []) [] (codes "{") ≡ Some (call.State (op.ClearInstances (codes "b") (Err BadBody))) }
    ensures no_dag { call_of_row endpoint.ClearInstances (codes "~" ∷ []) [] [] ≡ None }
    ensures path { spelled (segments_of template.RunClear) ≡ codes "/api/v1/dags/{dag_id}/dagRuns/{dag_run_id}/clear" }
    ensures dag_path { spelled (segments_of template.Clear) ≡ codes "/api/v1/dags/{dag_id}/clearTaskInstances" }
    ensures methods { methods_at template.Clear ≡ record { get = false; post = true; patch = false; delete = false } }
    ensures names { are_names (Some Post) template.RunClear (codes "b" ∷ codes "~" ∷ []) ≡ false }
{}

/// Who deletes a run: one who may edit its DAG and delete runs. Nothing is told of it; a denial comes before an absence, and both
/// before a history that is full. Once it is deleted, it is absent.
pub fn deletes_by_the_rule()
    ensures deleted { asks later (codes "uma") (op.DeleteRun (codes "b") (codes "r2")) ≡ Changes None without_second }
    ensures told { is_told later (codes "uma") (op.DeleteRun (codes "b") (codes "r2")) ≡ Some (record { status = status.NoContent; version = Some 0; seq = Some 3; body = None }) }
    ensures again { asks (record { under = later.under; state = without_second }) (codes "uma") (op.DeleteRun (codes "b") (codes "r2")) ≡ Refuses fault.NoSuchRun }
    ensures of_another { asks later (codes "uma") (op.DeleteRun (codes "a") (codes "r2")) ≡ Refuses fault.NoSuchRun }
    ensures no_dag { asks later (codes "uma") (op.DeleteRun (codes "nosuch") (codes "r2")) ≡ Refuses fault.NoSuchDag }
    ensures denied { asks later (codes "vera") (op.DeleteRun (codes "nosuch") (codes "r2")) ≡ Lacks (at_dag Edit) }
    ensures full { asks full_later (codes "uma") (op.DeleteRun (codes "b") (codes "r2")) ≡ Refuses fault.HistoryFull }
    ensures row { call_of_row endpoint.DeleteRun (codes "b" ∷ codes "r~1" ∷ []) [] (codes "{") ≡ Some (call.State (op.DeleteRun (codes "b") (codes "r~1"))) }
    ensures no_name { call_of_row endpoint.DeleteRun (codes "b" ∷ codes "~" ∷ []) [] [] ≡ None }
    ensures found { endpoint_at Delete template.Run ≡ Some endpoint.DeleteRun }
{}
