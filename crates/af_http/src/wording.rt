ghost use Rattle.std.specs.Prelude.{◌≡◌, ◌<◌, ◌++◌, Some, codes, length};
ghost use Rattle.af_http.specs.Answers.{status_line, type_line_of, allow_line, close_line};

use af_ops::{Methods, Status};

/// The status line.
pub fn status_line(status: Status) -> &'static [u8]
    ensures text { result.now ≡ status_line status }
    ensures some { 0 < length result.now }
{
    match status {
        Status::Ok => b"HTTP/1.1 200 OK\r\n",
        Status::NoContent => b"HTTP/1.1 204 No Content\r\n",
        Status::BadRequest => b"HTTP/1.1 400 Bad Request\r\n",
        Status::Unauthorized => b"HTTP/1.1 401 Unauthorized\r\n",
        Status::Forbidden => b"HTTP/1.1 403 Forbidden\r\n",
        Status::NotFound => b"HTTP/1.1 404 Not Found\r\n",
        Status::MethodNotAllowed => b"HTTP/1.1 405 Method Not Allowed\r\n",
        Status::Conflict => b"HTTP/1.1 409 Conflict\r\n",
        Status::ContentTooLarge => b"HTTP/1.1 413 Content Too Large\r\n",
        Status::HeadTooLarge => b"HTTP/1.1 431 Request Header Fields Too Large\r\n",
        Status::InternalError => b"HTTP/1.1 500 Internal Server Error\r\n",
        Status::NotImplemented => b"HTTP/1.1 501 Not Implemented\r\n",
        Status::Unavailable => b"HTTP/1.1 503 Service Unavailable\r\n",
        Status::InsufficientStorage => b"HTTP/1.1 507 Insufficient Storage\r\n",
    }
}

/// The type of a body, and the name of the field that tells its length.
pub fn body_line(status: Status) -> &'static [u8]
    ensures { result.now ≡ type_line_of status ++ codes "Content-Length: " }
{
    if status.is_fault() {
        b"Content-Type: application/problem+json\r\nContent-Length: "
    } else {
        b"Content-Type: application/json\r\nContent-Length: "
    }
}

/// The field that tells these methods.
pub fn allow_line(allow: Methods) -> &'static [u8]
    ensures { result.now ≡ allow_line (Some allow) }
{
    match (allow.get, allow.post, allow.patch, allow.delete) {
        (true, true, true, true) => b"Allow: GET, POST, PATCH, DELETE\r\n",
        (true, true, true, false) => b"Allow: GET, POST, PATCH\r\n",
        (true, true, false, true) => b"Allow: GET, POST, DELETE\r\n",
        (true, true, false, false) => b"Allow: GET, POST\r\n",
        (true, false, true, true) => b"Allow: GET, PATCH, DELETE\r\n",
        (true, false, true, false) => b"Allow: GET, PATCH\r\n",
        (true, false, false, true) => b"Allow: GET, DELETE\r\n",
        (true, false, false, false) => b"Allow: GET\r\n",
        (false, true, true, true) => b"Allow: POST, PATCH, DELETE\r\n",
        (false, true, true, false) => b"Allow: POST, PATCH\r\n",
        (false, true, false, true) => b"Allow: POST, DELETE\r\n",
        (false, true, false, false) => b"Allow: POST\r\n",
        (false, false, true, true) => b"Allow: PATCH, DELETE\r\n",
        (false, false, true, false) => b"Allow: PATCH\r\n",
        (false, false, false, true) => b"Allow: DELETE\r\n",
        (false, false, false, false) => b"Allow: \r\n",
    }
}

/// Whether the connection closes, and the empty line.
pub fn last_lines(closes: bool) -> &'static [u8]
    ensures { result.now ≡ close_line closes ++ codes "\r\n" }
{
    if closes {
        b"Connection: close\r\n\r\n"
    } else {
        b"\r\n"
    }
}
