ghost use Rattle.std.specs.Prelude.{◌≡◌};
ghost use Rattle.program_status.specs.Statuses.{number_of};

/// How a command ended, as the program's exit status tells.
#[derive(Clone, Copy, Debug, PartialEq, Eq)]
pub enum Status {
    /// It did what it was asked for.
    Done,
    /// The words are no command's.
    Usage,
    /// The site file is absent or refused, or its markers depend on themselves.
    BadSite,
    /// A line of the record is refused, or the record ends too soon.
    BadRecord,
    /// The journal is of another site, damaged or no journal at all.
    BadJournal,
    /// A file or the record can't be read.
    ReadFault,
    /// The text can't be written.
    WriteFault,
    /// The journal's disk failed while the journal was opened.
    DiskFault,
    /// Memory ran out before anything was written.
    NoMemory,
    /// The door to the network failed.
    DoorFault,
    /// The record passes a limit.
    Limit,
    /// The text that is audited breaks a rule.
    AuditFailed,
    /// A file beside the site file is absent or too long, or the text that is audited is in no form.
    BadFile,
    /// A row of the file that is imported is refused.
    BadRow,
    /// The keeper of the service register failed.
    KeeperFault,
}

impl Status {
    /// The exit status.
    pub fn number(self) -> u8
        ensures { result ≡ number_of self }
    {
        match self {
            Status::Done => 0,
            Status::Usage => 2,
            Status::BadSite => 3,
            Status::BadRecord => 4,
            Status::BadJournal => 5,
            Status::ReadFault => 6,
            Status::WriteFault => 7,
            Status::DiskFault => 8,
            Status::NoMemory => 9,
            Status::DoorFault => 10,
            Status::Limit => 11,
            Status::AuditFailed => 12,
            Status::BadFile => 13,
            Status::BadRow => 14,
            Status::KeeperFault => 15,
        }
    }
}
