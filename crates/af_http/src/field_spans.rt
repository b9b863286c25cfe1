use crate::lines::FIELD_LIMIT;
use httparse::spans::{EMPTY_HEADER_SPAN, HeaderSpan};

/// Where the fields of a head lie, with room for as many as a head may have. A connection keeps the room, so no request clears it.
#[derive(Drop)]
pub struct FieldSpans {
    pub spans: [HeaderSpan; FIELD_LIMIT],
}

impl FieldSpans {
    /// No field was found yet.
    pub fn new() -> FieldSpans {
        FieldSpans {
            spans: [EMPTY_HEADER_SPAN; FIELD_LIMIT],
        }
    }
}
