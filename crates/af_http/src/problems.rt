ghost use Rattle.std.specs.Prelude.{◌≡◌, ◌<◌, codes, Some, length};
ghost use Rattle.af_ops.specs.declared.status.Status.TheVariants as status;
ghost use Rattle.af_http.specs.Answers.{problem_body, memory_text};
ghost use Rattle.af_http.specs.Reading.{status_of, detail_of, leaves_out};

use crate::refusal::Refusal;
use af_ops::Status;

impl Refusal {
    /// The status of its answer.
    pub fn status(self) -> Status
        ensures { result ≡ status_of self }
    {
        match self {
            Refusal::BadHead(_) | Refusal::Incomplete(_) => Status::BadRequest,
            Refusal::HeadTooLarge => Status::HeadTooLarge,
            Refusal::Coding(_) => Status::NotImplemented,
            Refusal::BodyTooLarge(_) => Status::ContentTooLarge,
        }
    }

    /// The body of its answer.
    pub fn body(self) -> &'static [u8]
        ensures { result.now ≡ problem_body (status_of self) (detail_of self) }
    {
        match self {
            Refusal::BadHead(_) =>
                b"{\"detail\":\"bad request head\",\"status\":400,\"title\":\"Bad Request\",\"type\":\"about:blank\"}",
            Refusal::Incomplete(_) =>
                b"{\"detail\":\"incomplete request\",\"status\":400,\"title\":\"Bad Request\",\"type\":\"about:blank\"}",
            Refusal::HeadTooLarge =>
                b"{\"detail\":\"request head too large\",\"status\":431,\"title\":\"Request Header Fields Too Large\",\"type\":\"about:blank\"}",
            Refusal::Coding(_) =>
                b"{\"detail\":\"transfer coding not supported\",\"status\":501,\"title\":\"Not Implemented\",\"type\":\"about:blank\"}",
            Refusal::BodyTooLarge(_) =>
                b"{\"detail\":\"body too large\",\"status\":413,\"title\":\"Content Too Large\",\"type\":\"about:blank\"}",
        }
    }

    /// Whether its answer leaves the body out.
    pub fn head_only(self) -> bool
        ensures { result ≡ leaves_out self }
    {
        match self {
            Refusal::BadHead(head_only)
            | Refusal::Incomplete(head_only)
            | Refusal::Coding(head_only)
            | Refusal::BodyTooLarge(head_only) => head_only,
            Refusal::HeadTooLarge => false,
        }
    }
}

/// The body of 404 for a path that the table does not have.
pub fn no_path_body() -> &'static [u8]
    ensures { result.now ≡ problem_body status.NotFound (codes "no such path") }
{
    b"{\"detail\":\"no such path\",\"status\":404,\"title\":\"Not Found\",\"type\":\"about:blank\"}"
}

/// The body of 405.
pub fn bad_method_body() -> &'static [u8]
    ensures { result.now ≡ problem_body status.MethodNotAllowed (codes "method not allowed") }
{
    b"{\"detail\":\"method not allowed\",\"status\":405,\"title\":\"Method Not Allowed\",\"type\":\"about:blank\"}"
}

/// The whole text of an answer for which there was no memory; nothing was done.
pub fn memory_text() -> &'static [u8]
    ensures text { result.now ≡ memory_text }
    ensures some { 0 < length result.now }
{
    b"HTTP/1.1 503 Service Unavailable\r\nContent-Type: application/problem+json\r\nContent-Length: 90\r\nConnection: close\r\n\r\n{\"detail\":\"out of memory\",\"status\":503,\"title\":\"Service Unavailable\",\"type\":\"about:blank\"}"
}
