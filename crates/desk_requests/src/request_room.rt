ghost use Rattle.std.specs.Prelude.{◌≡◌, ◌≤◌, length};

/// Room for one request, or for other bytes of a connection, which is taken when this is made.
#[derive(Drop)]
pub struct RequestRoom {
    pub(crate) bytes: Vec<u8>,
    // How many of them were read.
    pub(crate) filled: usize,
    ghost whole: { length bytes.items ≡ 73728 },
    ghost within: { filled ≤ 73728 },
}
