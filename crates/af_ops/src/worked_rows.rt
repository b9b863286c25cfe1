//! Worked values of the operations on pools and variables, computed by the checker.
ghost use Rattle.std.specs.Prelude.{◌≡◌, [], ◌∷◌, codes, Err, Ok, None, Some, true, false};
ghost use Rattle.af_ops.specs.declared.answer.OpFault.TheVariants as fault;
ghost use Rattle.af_ops.specs.declared.body_fault.BodyFault.TheVariants.{BadBody, BadMember};
ghost use Rattle.af_ops.specs.declared.body_fault.Member.TheVariants.{Key, Name, Slots, Value};
ghost use Rattle.af_ops.specs.declared.endpoint.Endpoint.TheVariants as endpoint;
ghost use Rattle.af_ops.specs.declared.method.Method.TheVariants.{Get};
ghost use Rattle.af_ops.specs.declared.op.Op.TheVariants as op;
ghost use Rattle.af_ops.specs.declared.path_template.PathTemplate.TheVariants as template;
ghost use Rattle.af_ops.specs.declared.pool_op.PoolOp.TheVariants as pool_op;
ghost use Rattle.af_ops.specs.declared.status.Status.TheVariants as status;
ghost use Rattle.af_ops.specs.declared.variable_op.VariableOp.TheVariants as variable_op;
ghost use Rattle.af_role.specs.declared.action.Action.TheVariants as action;
ghost use Rattle.af_role.specs.declared.action.Action.TheVariants.{Create};
ghost use Rattle.af_role.specs.declared.resource.ResourceKind.TheVariants.{Pools, Variables};
ghost use Rattle.serde_json.specs.Written.{compact_text};
ghost use Rattle.af_ops.specs.declared.call.Call.TheVariants as call;
ghost use Rattle.af_ops.specs.Calls.{call_of_row};
ghost use Rattle.af_ops.specs.Endpoints.{are_names};
ghost use Rattle.af_ops.specs.PoolEffects.{told};
ghost use Rattle.af_ops.specs.Replies.{variable_data};
ghost use Rattle.af_ops.specs.RowBodies.{pool_in, slots_in, value_in, variable_in};
ghost use Rattle.af_ops.specs.Table.{methods_at, on_all, segments_of, spelled};
ghost use Rattle.af_ops.specs.Verdicts.{Changes, Lacks, Refuses, Tells};
ghost use Rattle.af_ops.specs.Worked.{first_page};
ghost use Rattle.af_ops.specs.WorkedRows.{asks, lane, named, of_pools, of_variables, pool, standing, state, variable, with_p};

/// Pools are added, get other slots and are deleted, by who may; what is asked for is told before what stands.
pub fn pools_by_the_rule()
    ensures added { asks (standing 7 named []) (codes "olga") (op.Pool (pool_op.Add (Ok (pool (codes "p") 2)))) ≡ Changes (Some (compact_text (told (state named []) (pool (codes "p") 2)))) (state (with_p 2) []) }
    ensures set { asks (standing 7 (with_p 2) []) (codes "olga") (op.Pool (pool_op.Change (codes "p") (Ok 3))) ≡ Changes (Some (compact_text (told (state (with_p 2) []) (pool (codes "p") 3)))) (state (with_p 3) []) }
    ensures deleted { asks (standing 7 (with_p 2) []) (codes "olga") (op.Pool (pool_op.Delete (codes "p"))) ≡ Changes None (state named []) }
    ensures denied { asks (standing 7 named []) (codes "uma") (op.Pool (pool_op.Add (Err BadBody))) ≡ Lacks (on_all Create Pools) }
    ensures bad_body { asks (standing 7 named []) (codes "olga") (op.Pool (pool_op.Change (codes "q") (Err BadBody))) ≡ Refuses fault.BadBody }
    ensures too_many_slots { asks (standing 7 named []) (codes "olga") (op.Pool (pool_op.Change (codes "q") (Ok 1_000_001))) ≡ Refuses (fault.BadMember Slots) }
    ensures full { asks (standing 1_000_000 named []) (codes "olga") (op.Pool (pool_op.Add (Ok (pool (codes "p") 2)))) ≡ Refuses fault.HistoryFull }
    ensures full_reads { asks (standing 1_000_000 (with_p 2) []) (codes "olga") (op.Pool (pool_op.Change (codes "p") (Ok 2))) ≡ Tells (Some (compact_text (told (state (with_p 2) []) (pool (codes "p") 2)))) }
{}

/// Variables are written and deleted, by who may.
pub fn variables_by_the_rule()
    ensures written { asks (standing 7 named (variable (codes "k") (codes "v") ∷ [])) (codes "olga") (op.Variable (variable_op.Change (codes "k") (Ok (codes "w")))) ≡ Changes (Some (compact_text (variable_data (variable (codes "k") (codes "w"))))) (state named (variable (codes "k") (codes "w") ∷ [])) }
    ensures variable_denied { asks (standing 7 named []) (codes "uma") (op.Variable (variable_op.Delete (codes "k"))) ≡ Lacks (on_all action.Delete Variables) }
    ensures variable_absent { asks (standing 7 named []) (codes "olga") (op.Variable (variable_op.Delete (codes "k"))) ≡ Refuses fault.NoSuchVariable }
    ensures variable_full { asks (standing 1_000_000 named (variable (codes "k") (codes "v") ∷ [])) (codes "olga") (op.Variable (variable_op.Delete (codes "k"))) ≡ Refuses fault.HistoryFull }
{}

/// What is told of pools: a pool whose instances hold more than it has is told with no open slots.
pub fn pool_messages_by_the_rule()
    ensures added { of_pools named (pool_op.Add (Ok (pool (codes "p") 2))) ≡ Some (record { status = status.Ok; version = Some 0; seq = Some 8; body = Some (codes "{\"name\":\"p\",\"occupied_slots\":0,\"open_slots\":2,\"queued_slots\":0,\"running_slots\":0,\"slots\":2}") }) }
    ensures again { of_pools (with_p 2) (pool_op.Add (Ok (pool (codes "p") 2))) ≡ Some (record { status = status.Conflict; version = Some 0; seq = Some 7; body = Some (codes "{\"detail\":\"exists: p\",\"status\":409,\"title\":\"Conflict\",\"type\":\"about:blank\"}") }) }
    ensures held { of_pools named (pool_op.Get (codes "slow \"lane\"")) ≡ Some (record { status = status.Ok; version = Some 0; seq = Some 7; body = Some (codes "{\"name\":\"slow \\\"lane\\\"\",\"occupied_slots\":3,\"open_slots\":1,\"queued_slots\":0,\"running_slots\":3,\"slots\":4}") }) }
    ensures lowered { of_pools (pool (codes "default_pool") 128 ∷ lane 2 ∷ []) (pool_op.Get (codes "slow \"lane\"")) ≡ Some (record { status = status.Ok; version = Some 0; seq = Some 7; body = Some (codes "{\"name\":\"slow \\\"lane\\\"\",\"occupied_slots\":3,\"open_slots\":0,\"queued_slots\":0,\"running_slots\":3,\"slots\":2}") }) }
    ensures set { of_pools (with_p 2) (pool_op.Change (codes "p") (Ok 3)) ≡ Some (record { status = status.Ok; version = Some 0; seq = Some 8; body = Some (codes "{\"name\":\"p\",\"occupied_slots\":0,\"open_slots\":3,\"queued_slots\":0,\"running_slots\":0,\"slots\":3}") }) }
    ensures as_it_was { of_pools (with_p 2) (pool_op.Change (codes "p") (Ok 2)) ≡ Some (record { status = status.Ok; version = Some 0; seq = Some 7; body = Some (codes "{\"name\":\"p\",\"occupied_slots\":0,\"open_slots\":2,\"queued_slots\":0,\"running_slots\":0,\"slots\":2}") }) }
    ensures listed { of_pools named (pool_op.List first_page) ≡ Some (record { status = status.Ok; version = Some 0; seq = Some 7; body = Some (codes "{\"pools\":[{\"name\":\"default_pool\",\"occupied_slots\":0,\"open_slots\":128,\"queued_slots\":0,\"running_slots\":0,\"slots\":128},{\"name\":\"slow \\\"lane\\\"\",\"occupied_slots\":3,\"open_slots\":1,\"queued_slots\":0,\"running_slots\":3,\"slots\":4}],\"total_entries\":2}") }) }
    ensures absent { of_pools named (pool_op.Get (codes "p")) ≡ Some (record { status = status.NotFound; version = Some 0; seq = Some 7; body = Some (codes "{\"detail\":\"no such pool: p\",\"status\":404,\"title\":\"Not Found\",\"type\":\"about:blank\"}") }) }
    ensures bad_slots { of_pools named (pool_op.Change (codes "p") (Err (BadMember Slots))) ≡ Some (record { status = status.BadRequest; version = Some 0; seq = Some 7; body = Some (codes "{\"detail\":\"bad member: slots\",\"status\":400,\"title\":\"Bad Request\",\"type\":\"about:blank\"}") }) }
    ensures default_stays { of_pools named (pool_op.Delete (codes "default_pool")) ≡ Some (record { status = status.Conflict; version = Some 0; seq = Some 7; body = Some (codes "{\"detail\":\"default pool\",\"status\":409,\"title\":\"Conflict\",\"type\":\"about:blank\"}") }) }
    ensures used_stays { of_pools named (pool_op.Delete (codes "slow \"lane\"")) ≡ Some (record { status = status.Conflict; version = Some 0; seq = Some 7; body = Some (codes "{\"detail\":\"pool in use: slow \\\"lane\\\"\",\"status\":409,\"title\":\"Conflict\",\"type\":\"about:blank\"}") }) }
    ensures deleted { of_pools (with_p 2) (pool_op.Delete (codes "p")) ≡ Some (record { status = status.NoContent; version = Some 0; seq = Some 8; body = None }) }
{}

/// What is told of variables.
pub fn variable_messages_by_the_rule()
    ensures added { of_variables [] (variable_op.Add (Ok (variable (codes "k") (codes "v")))) ≡ Some (record { status = status.Ok; version = Some 0; seq = Some 8; body = Some (codes "{\"key\":\"k\",\"value\":\"v\"}") }) }
    ensures again { of_variables (variable (codes "k") (codes "v") ∷ []) (variable_op.Add (Ok (variable (codes "k") (codes "v")))) ≡ Some (record { status = status.Conflict; version = Some 0; seq = Some 7; body = Some (codes "{\"detail\":\"exists: k\",\"status\":409,\"title\":\"Conflict\",\"type\":\"about:blank\"}") }) }
    ensures shown { of_variables (variable (codes "k") (codes "v") ∷ []) (variable_op.Get (codes "k")) ≡ Some (record { status = status.Ok; version = Some 0; seq = Some 7; body = Some (codes "{\"key\":\"k\",\"value\":\"v\"}") }) }
    ensures absent { of_variables [] (variable_op.Get (codes "k")) ≡ Some (record { status = status.NotFound; version = Some 0; seq = Some 7; body = Some (codes "{\"detail\":\"no such variable: k\",\"status\":404,\"title\":\"Not Found\",\"type\":\"about:blank\"}") }) }
    ensures written { of_variables (variable (codes "k") (codes "v") ∷ []) (variable_op.Change (codes "k") (Ok (codes "w\n"))) ≡ Some (record { status = status.Ok; version = Some 0; seq = Some 8; body = Some (codes "{\"key\":\"k\",\"value\":\"w\\n\"}") }) }
    ensures as_it_was { of_variables (variable (codes "k") (codes "v") ∷ []) (variable_op.Change (codes "k") (Ok (codes "v"))) ≡ Some (record { status = status.Ok; version = Some 0; seq = Some 7; body = Some (codes "{\"key\":\"k\",\"value\":\"v\"}") }) }
    ensures listed { of_variables (variable (codes "k") (codes "v") ∷ []) (variable_op.List first_page) ≡ Some (record { status = status.Ok; version = Some 0; seq = Some 7; body = Some (codes "{\"total_entries\":1,\"variables\":[{\"key\":\"k\",\"value\":\"v\"}]}") }) }
    ensures deleted { of_variables (variable (codes "k") (codes "v") ∷ []) (variable_op.Delete (codes "k")) ≡ Some (record { status = status.NoContent; version = Some 0; seq = Some 8; body = None }) }
{}

/// Bodies on pools and variables: the first member that is bad is told.
pub fn row_bodies_by_the_rule()
    ensures pool { pool_in (codes "{\"name\":\"p\",\"slots\":2}") ≡ Ok (pool (codes "p") 2) }
    ensures most { slots_in (codes "{\"slots\":1000000}") ≡ Ok 1_000_000 }
    ensures past { slots_in (codes "{\"slots\":1000001}") ≡ Err (BadMember Slots) }
    ensures point { slots_in (codes "{\"slots\":1.0}") ≡ Err (BadMember Slots) }
    ensures below { slots_in (codes "{\"slots\":-1}") ≡ Err (BadMember Slots) }
    ensures name_first { pool_in (codes "{\"slots\":\"2\"}") ≡ Err (BadMember Name) }
    ensures no_name { pool_in (codes "{\"name\":\"\",\"slots\":2}") ≡ Err (BadMember Name) }
    ensures cut { pool_in (codes "{") ≡ Err BadBody }
    ensures variable { variable_in (codes "{\"value\":\"\",\"key\":\"a b\"}") ≡ Ok (variable (codes "a b") []) }
    ensures no_key { variable_in (codes "{\"value\":1}") ≡ Err (BadMember Key) }
    ensures no_text { value_in (codes "{\"value\":1}") ≡ Err (BadMember Value) }
    ensures nothing { value_in (codes "{\"value\":null}") ≡ Err (BadMember Value) }
{}

/// Requests on pools and variables by the table.
pub fn row_routes_by_the_rule()
    ensures pools { methods_at template.Pools ≡ record { get = true; post = true; patch = false; delete = false } }
    ensures pool { methods_at template.Pool ≡ record { get = true; post = false; patch = true; delete = true } }
    ensures path { spelled (segments_of template.Pool) ≡ codes "/api/v1/pools/{pool_name}" }
    ensures variable_path { spelled (segments_of template.Variable) ≡ codes "/api/v1/variables/{variable_key}" }
    ensures one { call_of_row endpoint.GetPool (codes "a b" ∷ []) [] (codes "{") ≡ Some (call.State (op.Pool (pool_op.Get (codes "a b")))) }
    ensures no_name { call_of_row endpoint.DeletePool ([] ∷ []) [] [] ≡ None }
    ensures no_part { are_names (Some Get) template.Variable ([] ∷ []) ≡ false }
    ensures key { call_of_row endpoint.DeleteVariable (codes "%zz" ∷ []) [] [] ≡ Some (call.State (op.Variable (variable_op.Delete (codes "%zz")))) }
    ensures body { call_of_row endpoint.ChangeVariable (codes "k" ∷ []) [] (codes "{") ≡ Some (call.State (op.Variable (variable_op.Change (codes "k") (Err BadBody)))) }
{}
