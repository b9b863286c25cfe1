//! DAGs of the sample configuration, as who may read them is shown them.

/// All DAGs, as who may read all is shown them.
pub const THREE: &str =
    r#"{"dags":[{"dag_id":"a","is_paused":true,"max_active_runs":16,"next_dagrun":null,"schedule_interval":null},{"dag_id":"b","is_paused":false,"max_active_runs":16,"next_dagrun":null,"schedule_interval":null},{"dag_id":"c","is_paused":false,"max_active_runs":16,"next_dagrun":null,"schedule_interval":null}],"total_entries":3}"#;

/// The same, where b is paused.
pub const B_PAUSED: &str =
    r#"{"dags":[{"dag_id":"a","is_paused":true,"max_active_runs":16,"next_dagrun":null,"schedule_interval":null},{"dag_id":"b","is_paused":true,"max_active_runs":16,"next_dagrun":null,"schedule_interval":null},{"dag_id":"c","is_paused":false,"max_active_runs":16,"next_dagrun":null,"schedule_interval":null}],"total_entries":3}"#;

/// The same, where c is paused.
pub const C_PAUSED: &str =
    r#"{"dags":[{"dag_id":"a","is_paused":true,"max_active_runs":16,"next_dagrun":null,"schedule_interval":null},{"dag_id":"b","is_paused":false,"max_active_runs":16,"next_dagrun":null,"schedule_interval":null},{"dag_id":"c","is_paused":true,"max_active_runs":16,"next_dagrun":null,"schedule_interval":null}],"total_entries":3}"#;

/// b, where it is paused.
pub const PAUSED: &str =
    r#"{"dag_id":"b","is_paused":true,"max_active_runs":16,"next_dagrun":null,"schedule_interval":null}"#;
