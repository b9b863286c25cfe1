//! Worked values: what the definitions give at single texts and permissions, computed by the checker.
ghost use Rattle.std.specs.Prelude.{◌≡◌, [], ◌∷◌, ◌++◌, codes, map, true, false, None, Some};
ghost use Rattle.af_role.specs.declared.action.Action.TheVariants.{Create, Read, Edit, Delete};
ghost use Rattle.af_role.specs.declared.resource.ResourceKind.TheVariants.{Dags, DagRuns, TaskInstances, Pools, Variables, AuditLogs, Roles, Users};
ghost use Rattle.af_role.specs.declared.dag_part.DagPart.TheVariants.{Itself, Runs};
ghost use Rattle.af_role.specs.declared.resource.Resource.TheVariants.{Kind, Dag};
ghost use Rattle.af_role.specs.Resources.{action_of, resource_of};
ghost use Rattle.af_role.specs.Pairs.{on_dag, on_kind, on_runs, pair_of, pair_text, with_pairs};
ghost use Rattle.af_role.specs.DefaultRoles.{admin_pairs, default_rows, each_on, op_pairs, user_pairs, viewer_pairs};
ghost use Rattle.af_role.specs.Access.{bad_action, synced_role};
ghost use Rattle.af_role.specs.Needs.{need_text};

/// Texts of actions and of kinds of resources: letters in another case are another text.
pub fn texts_by_the_rule()
    ensures action { action_of (codes "can_edit") ≡ Some Edit }
    ensures no_action { action_of (codes "can_fly") ≡ None }
    ensures kind { resource_of (codes "DAG Runs") ≡ Some (Kind DagRuns) }
    ensures other_case { resource_of (codes "dags") ≡ None }
{}

/// Texts of single DAGs, `DAG:` and an id, and of their runs, `DAG Run:` and an id.
pub fn single_dags_by_the_rule()
    ensures dag { resource_of (codes "DAG:b") ≡ Some (Dag Itself (codes "b")) }
    ensures nothing { resource_of (codes "DAG:") ≡ None }
    ensures no_id { resource_of (codes "DAG:a b") ≡ None }
    ensures no_colon { resource_of (codes "DAG b") ≡ None }
    ensures runs { resource_of (codes "DAG Run:b") ≡ Some (Dag Runs (codes "b")) }
    ensures no_runs { resource_of (codes "DAG Run:") ≡ None }
    ensures no_id_of_runs { resource_of (codes "DAG Run:a b") ≡ None }
    ensures other_case { resource_of (codes "DAG run:b") ≡ None }
    ensures plural { resource_of (codes "DAG Runs:b") ≡ None }
{}

/// Which permissions there are, how one is written, and in which order several are shown: kinds, then single DAGs by
/// id, then the runs of single DAGs by id, and one given twice stands once.
pub fn pairs_by_the_rule()
    ensures no_create { pair_of Create (Dag Itself (codes "b")) ≡ None }
    ensures read { pair_of Read (Dag Itself (codes "b")) ≡ Some (on_dag Read (codes "b")) }
    ensures create_runs { pair_of Create (Dag Runs (codes "b")) ≡ Some (on_runs Create (codes "b")) }
    ensures create { pair_of Create (Kind Dags) ≡ Some (on_kind Create Dags) }
    ensures text { pair_text (on_dag Read (codes "b")) ≡ codes "DAG:b.can_read" }
    ensures text_of_runs { pair_text (on_runs Create (codes "b")) ≡ codes "DAG Run:b.can_create" }
    ensures order { with_pairs []
        (on_runs Read (codes "a") ∷ on_dag Read (codes "b") ∷ on_kind Read Users ∷ on_dag Edit (codes "b") ∷ on_dag Read (codes "a")
        ∷ on_kind Read Dags ∷ on_dag Read (codes "b") ∷ [])
        ≡ on_kind Read Dags ∷ on_kind Read Users ∷ on_dag Read (codes "a") ∷ on_dag Read (codes "b")
        ∷ on_dag Edit (codes "b") ∷ on_runs Read (codes "a") ∷ [] }
{}

/// What is listed in a DAG's access control: the first text that is no action, with those on runs first, and what a sync leaves of a role. Of
/// what was there on that DAG and on its runs nothing stays, but for Admin.
pub fn syncs_by_the_rule()
    ensures runs_first { bad_action (record { role = codes "R"; actions = codes "x" ∷ []; runs = codes "y" ∷ [] } ∷ []) ≡ Some (codes "y") }
    ensures create { bad_action (record { role = codes "R"; actions = codes "can_create" ∷ []; runs = codes "can_create" ∷ [] } ∷ []) ≡ Some (codes "can_create") }
    ensures create_runs { bad_action (record { role = codes "R"; actions = []; runs = codes "can_create" ∷ [] } ∷ []) ≡ None }
    ensures row_by_row { bad_action (record { role = codes "Q"; actions = codes "x" ∷ []; runs = [] } ∷ record { role = codes "R"; actions = []; runs = codes "y" ∷ [] } ∷ []) ≡ Some (codes "x") }
    ensures list { synced_role (codes "b") (record { role = codes "R"; actions = codes "can_read" ∷ []; runs = [] } ∷ [])
        (record { name = codes "R"; pairs = on_dag Edit (codes "b") ∷ on_runs Create (codes "b") ∷ on_runs Read (codes "c") ∷ [] })
        ≡ record { name = codes "R"; pairs = on_dag Read (codes "b") ∷ on_runs Read (codes "c") ∷ [] } }
    ensures both { synced_role (codes "b") (record { role = codes "R"; actions = codes "can_read" ∷ []; runs = codes "can_create" ∷ [] } ∷ [])
        (record { name = codes "R"; pairs = [] }) ≡ record { name = codes "R"; pairs = on_dag Read (codes "b") ∷ on_runs Create (codes "b") ∷ [] } }
    ensures others { synced_role (codes "b") (record { role = codes "R"; actions = codes "can_read" ∷ []; runs = codes "can_create" ∷ [] } ∷ [])
        (record { name = codes "Q"; pairs = on_dag Edit (codes "b") ∷ on_runs Create (codes "b") ∷ [] }) ≡ record { name = codes "Q"; pairs = [] } }
    ensures admin { synced_role (codes "b") (record { role = codes "Admin"; actions = []; runs = codes "can_read" ∷ [] } ∷ [])
        (record { name = codes "Admin"; pairs = on_dag Edit (codes "b") ∷ on_runs Create (codes "b") ∷ [] })
        ≡ record { name = codes "Admin"; pairs = on_dag Edit (codes "b") ∷ on_runs Create (codes "b") ∷ on_runs Read (codes "b") ∷ [] } }
{}

/// The default roles and all their permissions, in the order in which they are shown.
pub fn default_roles_by_the_rule()
    ensures names { map (λ role. role.name) default_rows
        ≡ codes "Public" ∷ codes "Viewer" ∷ codes "User" ∷ codes "Op" ∷ codes "Admin" ∷ [] }
    ensures viewer { viewer_pairs ≡ on_kind Read Dags ∷ on_kind Read DagRuns ∷ on_kind Read TaskInstances ∷ [] }
    ensures user { user_pairs ≡ each_on Dags (Read ∷ Edit ∷ Delete ∷ [])
        ++ each_on DagRuns (Create ∷ Read ∷ Edit ∷ Delete ∷ [])
        ++ each_on TaskInstances (Create ∷ Read ∷ Edit ∷ Delete ∷ []) }
    ensures op { op_pairs ≡ user_pairs ++ each_on Pools (Create ∷ Read ∷ Edit ∷ Delete ∷ [])
        ++ each_on Variables (Create ∷ Read ∷ Edit ∷ Delete ∷ []) ++ each_on AuditLogs (Read ∷ []) }
    ensures admin { admin_pairs ≡ op_pairs ++ each_on Roles (Create ∷ Read ∷ Edit ∷ Delete ∷ [])
        ++ each_on Users (Create ∷ Read ∷ Edit ∷ Delete ∷ []) }
{}

/// How a requirement is written: one at a DAG names the DAG that the request names, one on runs never does.
pub fn needs_by_the_rule()
    ensures at_dag { need_text (record { action = Read; kind = Dags; at_dag = true }) (Some (codes "a"))
        ≡ codes "DAG:a.can_read" }
    ensures at_none { need_text (record { action = Read; kind = Dags; at_dag = true }) None ≡ codes "DAGs.can_read" }
    ensures at_all { need_text (record { action = Read; kind = Dags; at_dag = false }) None ≡ codes "DAGs.can_read" }
    ensures runs { need_text (record { action = Create; kind = DagRuns; at_dag = true }) (Some (codes "b"))
        ≡ codes "DAG Runs.can_create" }
    ensures all_runs { need_text (record { action = Create; kind = DagRuns; at_dag = false }) (Some (codes "b"))
        ≡ codes "DAG Runs.can_create" }
{}
