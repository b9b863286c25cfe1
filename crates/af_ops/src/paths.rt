// The paths of DAGs, runs and instances, by their segments.
use crate::segment::Segment;

pub(crate) static VERSION: [Segment; 3] = [
    Segment {
        text: "api",
        is_part: false,
    },
    Segment {
        text: "v1",
        is_part: false,
    },
    Segment {
        text: "version",
        is_part: false,
    },
];

pub(crate) static DAGS: [Segment; 3] = [
    Segment {
        text: "api",
        is_part: false,
    },
    Segment {
        text: "v1",
        is_part: false,
    },
    Segment {
        text: "dags",
        is_part: false,
    },
];

pub(crate) static DAG: [Segment; 4] = [
    Segment {
        text: "api",
        is_part: false,
    },
    Segment {
        text: "v1",
        is_part: false,
    },
    Segment {
        text: "dags",
        is_part: false,
    },
    Segment {
        text: "dag_id",
        is_part: true,
    },
];

pub(crate) static TASKS: [Segment; 5] = [
    Segment {
        text: "api",
        is_part: false,
    },
    Segment {
        text: "v1",
        is_part: false,
    },
    Segment {
        text: "dags",
        is_part: false,
    },
    Segment {
        text: "dag_id",
        is_part: true,
    },
    Segment {
        text: "tasks",
        is_part: false,
    },
];

pub(crate) static RUNS: [Segment; 5] = [
    Segment {
        text: "api",
        is_part: false,
    },
    Segment {
        text: "v1",
        is_part: false,
    },
    Segment {
        text: "dags",
        is_part: false,
    },
    Segment {
        text: "dag_id",
        is_part: true,
    },
    Segment {
        text: "dagRuns",
        is_part: false,
    },
];

pub(crate) static RUN: [Segment; 6] = [
    Segment {
        text: "api",
        is_part: false,
    },
    Segment {
        text: "v1",
        is_part: false,
    },
    Segment {
        text: "dags",
        is_part: false,
    },
    Segment {
        text: "dag_id",
        is_part: true,
    },
    Segment {
        text: "dagRuns",
        is_part: false,
    },
    Segment {
        text: "dag_run_id",
        is_part: true,
    },
];

pub(crate) static INSTANCES: [Segment; 7] = [
    Segment {
        text: "api",
        is_part: false,
    },
    Segment {
        text: "v1",
        is_part: false,
    },
    Segment {
        text: "dags",
        is_part: false,
    },
    Segment {
        text: "dag_id",
        is_part: true,
    },
    Segment {
        text: "dagRuns",
        is_part: false,
    },
    Segment {
        text: "dag_run_id",
        is_part: true,
    },
    Segment {
        text: "taskInstances",
        is_part: false,
    },
];

pub(crate) static INSTANCE: [Segment; 8] = [
    Segment {
        text: "api",
        is_part: false,
    },
    Segment {
        text: "v1",
        is_part: false,
    },
    Segment {
        text: "dags",
        is_part: false,
    },
    Segment {
        text: "dag_id",
        is_part: true,
    },
    Segment {
        text: "dagRuns",
        is_part: false,
    },
    Segment {
        text: "dag_run_id",
        is_part: true,
    },
    Segment {
        text: "taskInstances",
        is_part: false,
    },
    Segment {
        text: "task_id",
        is_part: true,
    },
];

pub(crate) static RUN_CLEAR: [Segment; 7] = [
    Segment {
        text: "api",
        is_part: false,
    },
    Segment {
        text: "v1",
        is_part: false,
    },
    Segment {
        text: "dags",
        is_part: false,
    },
    Segment {
        text: "dag_id",
        is_part: true,
    },
    Segment {
        text: "dagRuns",
        is_part: false,
    },
    Segment {
        text: "dag_run_id",
        is_part: true,
    },
    Segment {
        text: "clear",
        is_part: false,
    },
];

pub(crate) static CLEAR: [Segment; 5] = [
    Segment {
        text: "api",
        is_part: false,
    },
    Segment {
        text: "v1",
        is_part: false,
    },
    Segment {
        text: "dags",
        is_part: false,
    },
    Segment {
        text: "dag_id",
        is_part: true,
    },
    Segment {
        text: "clearTaskInstances",
        is_part: false,
    },
];
