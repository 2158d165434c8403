use desk_answers::Object;
use desk_requests::Status;

/// What is replied where a request is about the register or the end of serving.
#[derive(Drop)]
pub enum Reply {
    /// A status with one JSON object.
    Object { status: Status, object: Object },
    /// The table of the points that weren't tested since a day, as CSV.
    Table(Vec<u8>),
}

impl Reply {
    ghost use Rattle.std.specs.Prelude.{◌≡◌};
    ghost use Rattle.desk_register.specs.Statuses.{denied, done, refused, status_of};

    /// The status that the answer begins with.
    pub fn status_of(&self) -> Status
        ensures { result ≡ status_of self.now }
    {
        match self {
            Reply::Object { status, .. } => *status,
            Reply::Table(_) => Status::Done,
        }
    }

    // All is done, and this is told.
    pub(crate) fn done(object: Object) -> Reply
        ensures { result ≡ done object }
    {
        Reply::Object {
            status: Status::Done,
            object,
        }
    }

    // A refusal that tells nothing more.
    pub(crate) fn refused(status: Status) -> Reply
        ensures { result ≡ refused status }
    {
        Reply::Object {
            status,
            object: Object::Empty,
        }
    }

    // The level of the code isn't enough.
    pub(crate) fn denied(level: u8) -> Reply
        ensures { result ≡ denied level }
    {
        Reply::Object {
            status: Status::Forbidden,
            object: Object::Denied { level },
        }
    }
}
