//! Texts of answers, to the byte (RFC 9112, section 4; RFC 9457).

pub const VERSION: &str =
    "HTTP/1.1 200 OK\r\nContent-Type: application/json\r\nContent-Length: 42\r\n\r\n{\"git_version\":null,\"version\":\"afplane 1\"}";

pub const LAST_VERSION: &str =
    "HTTP/1.1 200 OK\r\nContent-Type: application/json\r\nContent-Length: 42\r\nConnection: close\r\n\r\n{\"git_version\":null,\"version\":\"afplane 1\"}";

pub const NO_PATH: &str =
    "HTTP/1.1 404 Not Found\r\nContent-Type: application/problem+json\r\nContent-Length: 79\r\n\r\n{\"detail\":\"no such path\",\"status\":404,\"title\":\"Not Found\",\"type\":\"about:blank\"}";

pub const BAD_METHOD: &str =
    "HTTP/1.1 405 Method Not Allowed\r\nContent-Type: application/problem+json\r\nContent-Length: 94\r\nAllow: GET\r\n\r\n{\"detail\":\"method not allowed\",\"status\":405,\"title\":\"Method Not Allowed\",\"type\":\"about:blank\"}";

pub const BAD_METHOD_OF_POST: &str =
    "HTTP/1.1 405 Method Not Allowed\r\nContent-Type: application/problem+json\r\nContent-Length: 94\r\nAllow: POST\r\n\r\n{\"detail\":\"method not allowed\",\"status\":405,\"title\":\"Method Not Allowed\",\"type\":\"about:blank\"}";

pub const INCOMPLETE: &str =
    "HTTP/1.1 400 Bad Request\r\nContent-Type: application/problem+json\r\nContent-Length: 87\r\nConnection: close\r\n\r\n{\"detail\":\"incomplete request\",\"status\":400,\"title\":\"Bad Request\",\"type\":\"about:blank\"}";

pub const BAD_HEAD: &str =
    "HTTP/1.1 400 Bad Request\r\nContent-Type: application/problem+json\r\nContent-Length: 85\r\nConnection: close\r\n\r\n{\"detail\":\"bad request head\",\"status\":400,\"title\":\"Bad Request\",\"type\":\"about:blank\"}";

pub const TOO_LARGE: &str =
    "HTTP/1.1 431 Request Header Fields Too Large\r\nContent-Type: application/problem+json\r\nContent-Length: 111\r\nConnection: close\r\n\r\n{\"detail\":\"request head too large\",\"status\":431,\"title\":\"Request Header Fields Too Large\",\"type\":\"about:blank\"}";

pub const BODY_TOO_LARGE: &str =
    "HTTP/1.1 413 Content Too Large\r\nContent-Type: application/problem+json\r\nContent-Length: 89\r\nConnection: close\r\n\r\n{\"detail\":\"body too large\",\"status\":413,\"title\":\"Content Too Large\",\"type\":\"about:blank\"}";

pub const MEMORY: &str =
    "HTTP/1.1 503 Service Unavailable\r\nContent-Type: application/problem+json\r\nContent-Length: 90\r\nConnection: close\r\n\r\n{\"detail\":\"out of memory\",\"status\":503,\"title\":\"Service Unavailable\",\"type\":\"about:blank\"}";

/// An answer that has no content has no length either (RFC 9110, sections 8.6 and 15.3.5).
pub const EMPTY: &str = "HTTP/1.1 204 No Content\r\nX-Policy-Version: 3\r\nX-Plane-Seq: 70\r\n\r\n";
