ghost use Rattle.std.specs.Prelude.{◌≡◌, [], ◌∷◌, List};
ghost use Rattle.sounder_control.specs.Quiet.{Call, Drove, Resounded, Silenced, is_quiet};

use crate::zones::keeps_quiet;

/// The silence of a panel's sounders.
#[derive(Clone, Copy, Debug, PartialEq, Eq)]
pub struct Silence {
    /// The zones of the latest turn, a mask for each panel.
    latest: [u32; 8],
    /// The zones that the silence in force took.
    taken: Option<[u32; 8]>,
}

impl Silence {
    ghost use Rattle.sounder_control.specs.Stands.{StandsFor};

    /// No silence, before any turn.
    pub fn new() -> Silence
        ensures { StandsFor [] result }
    {
        Silence {
            latest: [0; 8],
            taken: None,
        }
    }

    /// Silences the sounders, with the zones that the latest turn found. Before any turn there are none, and
    /// such a silence holds at no turn.
    pub fn silence(&mut self)
        ensures { (calls : List Call) → StandsFor calls self.old
            → StandsFor (Silenced ∷ calls) self.new }
    {
        self.taken = Some(self.latest);
    }

    /// Ends the silence, if there is one.
    pub fn resound(&mut self)
        ensures { (calls : List Call) → StandsFor calls self.old
            → StandsFor (Resounded ∷ calls) self.new }
    {
        self.taken = None;
    }

    /// Makes the turn of a tick with the zones that are released in it, bit `number - 1` in the mask of each
    /// panel, and tells whether the sounders are quiet.
    pub fn quiet(&mut self, zones: &[u32; 8]) -> bool
        ensures stands { (calls : List Call) → StandsFor calls self.old
            → StandsFor (Drove zones.now ∷ calls) self.new }
        ensures value { (calls : List Call) → StandsFor calls self.old
            → result ≡ is_quiet (Drove zones.now ∷ calls) }
    {
        self.latest = *zones;
        if self.taken.is_none() {
            return false;
        }
        self.taken = self.taken.filter(|taken| keeps_quiet(taken, zones));
        self.taken.is_some()
    }
}
