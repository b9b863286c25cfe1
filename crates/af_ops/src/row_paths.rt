// The paths of pools and variables, by their segments.
use crate::segment::Segment;

pub(crate) static POOLS: [Segment; 3] = [
    Segment {
        text: "api",
        is_part: false,
    },
    Segment {
        text: "v1",
        is_part: false,
    },
    Segment {
        text: "pools",
        is_part: false,
    },
];

pub(crate) static POOL: [Segment; 4] = [
    Segment {
        text: "api",
        is_part: false,
    },
    Segment {
        text: "v1",
        is_part: false,
    },
    Segment {
        text: "pools",
        is_part: false,
    },
    Segment {
        text: "pool_name",
        is_part: true,
    },
];

pub(crate) static VARIABLES: [Segment; 3] = [
    Segment {
        text: "api",
        is_part: false,
    },
    Segment {
        text: "v1",
        is_part: false,
    },
    Segment {
        text: "variables",
        is_part: false,
    },
];

pub(crate) static VARIABLE: [Segment; 4] = [
    Segment {
        text: "api",
        is_part: false,
    },
    Segment {
        text: "v1",
        is_part: false,
    },
    Segment {
        text: "variables",
        is_part: false,
    },
    Segment {
        text: "variable_key",
        is_part: true,
    },
];
