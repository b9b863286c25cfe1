// The paths of event logs, of roles and users, and of those that stand beside the API's, by their segments.
use crate::segment::Segment;

pub(crate) static ENTRIES: [Segment; 3] = [
    Segment {
        text: "api",
        is_part: false,
    },
    Segment {
        text: "v1",
        is_part: false,
    },
    Segment {
        text: "eventLogs",
        is_part: false,
    },
];

pub(crate) static ROLES: [Segment; 3] = [
    Segment {
        text: "api",
        is_part: false,
    },
    Segment {
        text: "v1",
        is_part: false,
    },
    Segment {
        text: "roles",
        is_part: false,
    },
];

pub(crate) static ROLE: [Segment; 4] = [
    Segment {
        text: "api",
        is_part: false,
    },
    Segment {
        text: "v1",
        is_part: false,
    },
    Segment {
        text: "roles",
        is_part: false,
    },
    Segment {
        text: "role_name",
        is_part: true,
    },
];

pub(crate) static USERS: [Segment; 3] = [
    Segment {
        text: "api",
        is_part: false,
    },
    Segment {
        text: "v1",
        is_part: false,
    },
    Segment {
        text: "users",
        is_part: false,
    },
];

pub(crate) static USER: [Segment; 4] = [
    Segment {
        text: "api",
        is_part: false,
    },
    Segment {
        text: "v1",
        is_part: false,
    },
    Segment {
        text: "users",
        is_part: false,
    },
    Segment {
        text: "username",
        is_part: true,
    },
];

pub(crate) static ME: [Segment; 2] = [
    Segment {
        text: "own",
        is_part: false,
    },
    Segment {
        text: "me",
        is_part: false,
    },
];

pub(crate) static SYNC: [Segment; 4] = [
    Segment {
        text: "own",
        is_part: false,
    },
    Segment {
        text: "dags",
        is_part: false,
    },
    Segment {
        text: "dag_id",
        is_part: true,
    },
    Segment {
        text: "sync",
        is_part: false,
    },
];

pub(crate) static BACKFILLS: [Segment; 4] = [
    Segment {
        text: "own",
        is_part: false,
    },
    Segment {
        text: "dags",
        is_part: false,
    },
    Segment {
        text: "dag_id",
        is_part: true,
    },
    Segment {
        text: "backfills",
        is_part: false,
    },
];
