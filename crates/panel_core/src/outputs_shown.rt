ghost use Rattle.std.specs.Prelude.{◌≡◌, true};

/// What Drive shows of a panel.
#[derive(Clone, Copy, Debug, PartialEq, Eq)]
pub struct OutputsShown {
    /// The outputs that are on, bit `number - 1`.
    pub(crate) on: u32,
    /// Those that are confirmed.
    pub(crate) confirmed: u32,
}

impl OutputsShown {
    pub fn is_same(&self, other: &OutputsShown) -> bool
        ensures { result ≡ true → self.now ≡ other.now }
    {
        self == other
    }
}
