ghost use Rattle.std.specs.Prelude.{◌≡◌};
ghost use Rattle.desk_requests.specs.Statuses.{status_number};

/// How a request is answered.
#[derive(Clone, Copy, Debug, PartialEq, Eq)]
pub enum Status {
    Done,
    BadRequest,
    Forbidden,
    NotFound,
    MethodNotAllowed,
    Conflict,
    LengthRequired,
    BodyTooLarge,
    NotImplemented,
    Unavailable,
    NoRoom,
}

impl Status {
    /// The number that an answer begins with.
    pub fn number(self) -> u16
        ensures { result ≡ status_number self }
    {
        match self {
            Status::Done => 200,
            Status::BadRequest => 400,
            Status::Forbidden => 403,
            Status::NotFound => 404,
            Status::MethodNotAllowed => 405,
            Status::Conflict => 409,
            Status::LengthRequired => 411,
            Status::BodyTooLarge => 413,
            Status::NotImplemented => 501,
            Status::Unavailable => 503,
            Status::NoRoom => 507,
        }
    }
}
