//! Worked values of pages, computed by the checker.
ghost use Rattle.std.specs.Prelude.{◌≡◌, [], ◌∷◌, codes, Err, Ok, None, Some};
ghost use Rattle.af_policy.specs.declared.bad_input.Parameter.TheVariants.{Limit, Offset};
ghost use Rattle.serde_json.specs.Written.{compact_text};
ghost use Rattle.af_ops.specs.declared.answer.OpFault.TheVariants as fault;
ghost use Rattle.af_ops.specs.declared.endpoint.Endpoint.TheVariants as endpoint;
ghost use Rattle.af_ops.specs.declared.op.Op.TheVariants as op;
ghost use Rattle.af_ops.specs.declared.pool_op.PoolOp.TheVariants as pool_op;
ghost use Rattle.af_ops.specs.declared.status.Status.TheVariants as status;
ghost use Rattle.af_ops.specs.declared.variable_op.VariableOp.TheVariants as variable_op;
ghost use Rattle.af_role.specs.declared.action.Action.TheVariants.{Read};
ghost use Rattle.af_ops.specs.declared.call.Call.TheVariants as call;
ghost use Rattle.af_ops.specs.Calls.{call_of_row};
ghost use Rattle.af_ops.specs.Fields.{listing_of};
ghost use Rattle.af_ops.specs.Replies.{instance_data, run_data};
ghost use Rattle.af_ops.specs.Table.{at_some_dag};
ghost use Rattle.af_ops.specs.Verdicts.{Lacks, Refuses};
ghost use Rattle.af_ops.specs.Worked.{asks, at_work, is_told, later, opening, second, second_told, tells};
ghost use Rattle.af_ops.specs.WorkedRows.{of_pools, of_variables, named, variable};

/// What is read of queries: each listing reads its window, but that of tasks, and nothing else does.
pub fn windows_by_the_rule()
    ensures dags { call_of_row endpoint.ListDags [] (codes "limit=2&offset=1") [] ≡ Some (call.State (op.ListDags (Ok (record { limit = 2; offset = 1 })))) }
    ensures runs { call_of_row endpoint.ListRuns (codes "~" ∷ []) (codes "%6cimit=7") [] ≡ Some (call.State (op.ListRuns None (Ok (record { limit = 7; offset = 0 })))) }
    ensures one_dag { call_of_row endpoint.ListRuns (codes "b" ∷ []) (codes "limit=x") [] ≡ Some (call.State (op.ListRuns (Some (codes "b")) (Err Limit))) }
    ensures instances { call_of_row endpoint.ListInstances (codes "b" ∷ codes "r" ∷ []) (codes "offset=-1") [] ≡ Some (call.State (op.ListInstances (codes "b") (codes "r") (Err Offset))) }
    ensures pools { call_of_row endpoint.ListPools [] (codes "limit=1000") [] ≡ Some (call.State (op.Pool (pool_op.List (Ok (record { limit = 100; offset = 0 }))))) }
    ensures variables { call_of_row endpoint.ListVariables [] (codes "limit=3&limit=x") [] ≡ Some (call.State (op.Variable (variable_op.List (Ok (record { limit = 3; offset = 0 }))))) }
    ensures tasks { call_of_row endpoint.ListTasks (codes "b" ∷ []) (codes "limit=x") [] ≡ Some (call.State (op.ListTasks (codes "b"))) }
    ensures no_listing { call_of_row endpoint.GetDag (codes "b" ∷ []) (codes "limit=x") [] ≡ Some (call.State (op.GetDag (codes "b"))) }
{}

/// Pages of what is shown: of two runs, who reads one DAG is shown one, on whatever page. A faulty parameter is told of who may
/// ask, before what is absent.
pub fn pages_by_the_rule()
    ensures second { asks later (codes "vera") (op.ListRuns None (Ok (record { limit = 1; offset = 1 }))) ≡ tells (compact_text (listing_of (codes "dag_runs") (run_data second ∷ []) 2)) }
    ensures shown { asks later (codes "ron") (op.ListRuns None (Ok (record { limit = 1; offset = 0 }))) ≡ tells (compact_text (listing_of (codes "dag_runs") (run_data second ∷ []) 1)) }
    ensures past_the_end { asks later (codes "ron") (op.ListRuns None (Ok (record { limit = 100; offset = 1 }))) ≡ tells (compact_text (listing_of (codes "dag_runs") [] 1)) }
    ensures none_asked { asks later (codes "ron") (op.ListRuns (Some (codes "b")) (Ok (record { limit = 0; offset = 0 }))) ≡ tells (compact_text (listing_of (codes "dag_runs") [] 1)) }
    ensures instances { asks at_work (codes "vera") (op.ListInstances (codes "f") (codes "r") (Ok (record { limit = 5; offset = 1 }))) ≡ tells (compact_text (listing_of (codes "task_instances") (instance_data second_told ∷ []) 2)) }
    ensures denied { asks opening (codes "pat") (op.ListDags (Err Limit)) ≡ Lacks (at_some_dag Read) }
    ensures faulty { asks opening (codes "vera") (op.ListDags (Err Limit)) ≡ Refuses (fault.BadParameter Limit) }
    ensures before_absence { asks later (codes "vera") (op.ListRuns (Some (codes "nosuch")) (Err Offset)) ≡ Refuses (fault.BadParameter Offset) }
    ensures no_run { asks at_work (codes "vera") (op.ListInstances (codes "f") (codes "r2") (Err Offset)) ≡ Refuses (fault.BadParameter Offset) }
{}

/// What is told of pages.
pub fn page_messages_by_the_rule()
    ensures faulty { is_told opening (codes "vera") (op.ListDags (Err Limit)) ≡ Some (record { status = status.BadRequest; version = Some 0; seq = Some 0; body = Some (codes "{\"detail\":\"bad parameter: limit\",\"status\":400,\"title\":\"Bad Request\",\"type\":\"about:blank\"}") }) }
    ensures past_the_end { is_told later (codes "ron") (op.ListRuns None (Ok (record { limit = 100; offset = 9 }))) ≡ Some (record { status = status.Ok; version = Some 0; seq = Some 2; body = Some (codes "{\"dag_runs\":[],\"total_entries\":1}") }) }
    ensures pools { of_pools named (pool_op.List (Ok (record { limit = 1; offset = 1 }))) ≡ Some (record { status = status.Ok; version = Some 0; seq = Some 7; body = Some (codes "{\"pools\":[{\"name\":\"slow \\\"lane\\\"\",\"occupied_slots\":3,\"open_slots\":1,\"queued_slots\":0,\"running_slots\":3,\"slots\":4}],\"total_entries\":2}") }) }
    ensures variables { of_variables (variable (codes "k") (codes "v") ∷ []) (variable_op.List (Ok (record { limit = 100; offset = 1 }))) ≡ Some (record { status = status.Ok; version = Some 0; seq = Some 7; body = Some (codes "{\"total_entries\":1,\"variables\":[]}") }) }
{}
