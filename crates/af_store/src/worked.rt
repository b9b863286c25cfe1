//! Worked values: what the definitions of lines give for some entries and changes, computed by the checker.
ghost use Rattle.std.specs.Prelude.{◌≡◌, codes, Err, Ok};
ghost use Rattle.af_store.specs.ChangeLines.{change_body};
ghost use Rattle.af_store.specs.ChangeReads.{change_of};
ghost use Rattle.af_store.specs.EntryLines.{entry_body};
ghost use Rattle.af_store.specs.EntryReads.{entry_of};
ghost use Rattle.af_store.specs.Worked.{access_synced, nothing_set, pause, put_odd, reading, report, tick, tick_of_user, trigger, user_added};
ghost use Rattle.af_store.specs.declared.line_fault.LineFault.TheVariants.{NotALine};

/// The bodies of entries.
pub fn entries_by_the_rule()
    ensures tick { entry_body tick ≡ Ok (codes "{\"at\":0,\"by\":\"scheduler\",\"event\":\"tick\",\"event_log_id\":1,\"version\":0}") }
    ensures pause { entry_body pause ≡ Ok (codes "{\"at\":1704067200000001,\"by\":{\"user\":\"uma\"},\"dag_id\":\"etl\",\"event\":\"patch_dag\",\"event_log_id\":7,\"is_paused\":true,\"version\":2}") }
    ensures trigger { entry_body trigger ≡ Ok (codes "{\"at\":0,\"by\":{\"user\":\"uma\"},\"dag_id\":\"etl\",\"dag_run_id\":null,\"event\":\"trigger_dag_run\",\"event_log_id\":1,\"logical_date\":5,\"version\":0}") }
    ensures escapes { entry_body put_odd ≡ Ok (codes "{\"at\":0,\"by\":{\"user\":\"uma\"},\"event\":\"post_variable\",\"event_log_id\":1,\"key\":\"k\",\"value\":\"\\\"\\\\\\n\",\"version\":0}") }
    ensures report { entry_body report ≡ Ok (codes "{\"at\":0,\"by\":\"executor\",\"dag_id\":\"etl\",\"dag_run_id\":\"r\",\"event\":\"report\",\"event_log_id\":1,\"outcome\":\"failed\",\"run_number\":3,\"task_id\":\"t\",\"try_number\":2,\"version\":0}") }
    ensures reading { entry_body reading ≡ Err NotALine }
    ensures not_the_scheduler { entry_body tick_of_user ≡ Err NotALine }
{}

/// The bodies of changes of the policy.
pub fn changes_by_the_rule()
    ensures user { change_body user_added ≡ codes "{\"by\":\"audrey\",\"event\":\"add_user\",\"roles\":[{\"name\":\"Viewer\"},{\"name\":\"Viewer\"}],\"token_sha256\":\"00000000000000000000000000000000000000000000000000000000000000ab\",\"username\":\"zed\"}" }
    ensures nothing { change_body nothing_set ≡ codes "{\"by\":\"audrey\",\"event\":\"set_user\",\"roles\":null,\"token_sha256\":null,\"username\":\"zed\"}" }
    ensures access { change_body access_synced ≡ codes "{\"access_control\":[{\"DAG Runs\":[],\"DAGs\":[\"can_read\"],\"role\":\"R\"}],\"by\":\"audrey\",\"dag_id\":\"etl\",\"event\":\"sync_dag\"}" }
{}

/// What is read, and what is not: another order, a space, a member that is missing, doubled or one too many, an unknown event, another actor,
/// a number past its range, a name that is none, and what is no object.
pub fn refusals_by_the_rule()
    ensures tick { entry_of (codes "{\"at\":0,\"by\":\"scheduler\",\"event\":\"tick\",\"event_log_id\":1,\"version\":0}") ≡ Ok tick }
    ensures order { entry_of (codes "{\"by\":\"scheduler\",\"at\":0,\"event\":\"tick\",\"event_log_id\":1,\"version\":0}") ≡ Err NotALine }
    ensures space { entry_of (codes "{\"at\": 0,\"by\":\"scheduler\",\"event\":\"tick\",\"event_log_id\":1,\"version\":0}") ≡ Err NotALine }
    ensures missing { entry_of (codes "{\"at\":0,\"by\":\"scheduler\",\"event\":\"tick\",\"event_log_id\":1}") ≡ Err NotALine }
    ensures doubled { entry_of (codes "{\"at\":0,\"at\":0,\"by\":\"scheduler\",\"event\":\"tick\",\"event_log_id\":1,\"version\":0}") ≡ Err NotALine }
    ensures extra { entry_of (codes "{\"at\":0,\"by\":\"scheduler\",\"event\":\"tick\",\"event_log_id\":1,\"user\":\"u\",\"version\":0}") ≡ Err NotALine }
    ensures unknown { entry_of (codes "{\"at\":0,\"by\":\"scheduler\",\"event\":\"tock\",\"event_log_id\":1,\"version\":0}") ≡ Err NotALine }
    ensures actor { entry_of (codes "{\"at\":0,\"by\":\"executor\",\"event\":\"tick\",\"event_log_id\":1,\"version\":0}") ≡ Err NotALine }
    ensures range { entry_of (codes "{\"at\":0,\"by\":\"scheduler\",\"event\":\"tick\",\"event_log_id\":4294967296,\"version\":0}") ≡ Err NotALine }
    ensures name { change_of (codes "{\"by\":\"audrey\",\"event\":\"drop_role\",\"name\":\"\"}") ≡ Err NotALine }
    ensures upper { change_of (codes "{\"by\":\"audrey\",\"event\":\"set_user\",\"roles\":null,\"token_sha256\":\"00000000000000000000000000000000000000000000000000000000000000AB\",\"username\":\"zed\"}") ≡ Err NotALine }
    ensures list { change_of (codes "[]") ≡ Err NotALine }
{}
