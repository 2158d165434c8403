/// The bytes of one file that a shelf hands out, at most.
pub const MOST_FILE_BYTES: usize = 1_048_576;

/// The bytes of one record that are read, at most.
pub const MOST_RECORD_BYTES: u64 = 1 << 40;

/// The bytes of the head of one request, at most.
pub const MOST_HEAD_BYTES: usize = 8_192;

/// The bytes of the body of one request, at most.
pub const MOST_BODY_BYTES: usize = 65_536;

/// The bytes of a disk: no write reaches past this place.
pub const MOST_DISK_BYTES: usize = 65_536;
