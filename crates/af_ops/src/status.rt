ghost use Rattle.std.specs.Prelude.{◌≡◌};
ghost use Rattle.af_ops.specs.Statuses.{code_of, reason_of, is_fault_status};

/// The status of an answer (RFC 9110, section 15; 431 is RFC 6585, section 5, and 507 is RFC 4918, section 11.5).
#[derive(Clone, Copy, Debug, PartialEq, Eq)]
pub enum Status {
    Ok,
    NoContent,
    BadRequest,
    Unauthorized,
    Forbidden,
    NotFound,
    MethodNotAllowed,
    Conflict,
    ContentTooLarge,
    HeadTooLarge,
    InternalError,
    NotImplemented,
    Unavailable,
    InsufficientStorage,
}

impl Status {
    /// Its number, from 100 to 599.
    pub fn code(self) -> u16
        ensures { result ≡ code_of self }
    {
        match self {
            Status::Ok => 200,
            Status::NoContent => 204,
            Status::BadRequest => 400,
            Status::Unauthorized => 401,
            Status::Forbidden => 403,
            Status::NotFound => 404,
            Status::MethodNotAllowed => 405,
            Status::Conflict => 409,
            Status::ContentTooLarge => 413,
            Status::HeadTooLarge => 431,
            Status::InternalError => 500,
            Status::NotImplemented => 501,
            Status::Unavailable => 503,
            Status::InsufficientStorage => 507,
        }
    }

    /// Its reason phrase, which is also the title of a fault's body (RFC 9457, section 3.1.3).
    pub fn reason(self) -> &'static str
        ensures { result.now ≡ reason_of self }
    {
        match self {
            Status::Ok => "OK",
            Status::NoContent => "No Content",
            Status::BadRequest => "Bad Request",
            Status::Unauthorized => "Unauthorized",
            Status::Forbidden => "Forbidden",
            Status::NotFound => "Not Found",
            Status::MethodNotAllowed => "Method Not Allowed",
            Status::Conflict => "Conflict",
            Status::ContentTooLarge => "Content Too Large",
            Status::HeadTooLarge => "Request Header Fields Too Large",
            Status::InternalError => "Internal Server Error",
            Status::NotImplemented => "Not Implemented",
            Status::Unavailable => "Service Unavailable",
            Status::InsufficientStorage => "Insufficient Storage",
        }
    }

    /// Whether it tells a fault, whose body is then a problem (RFC 9457).
    pub fn is_fault(self) -> bool
        ensures { result ≡ is_fault_status self }
    {
        self.code() >= 400
    }
}
