ghost use Rattle.std.specs.Prelude.{◌≡◌, ℕ, List, Option, IfSome};
ghost use Rattle.panel_edges.specs.Faults.{HasFetchCause};
ghost use Rattle.panel_edges.specs.Shelves.{file_of, Fetched, Filled};

use crate::fetching::{FetchFault, Found};

/// Whole files that are fetched by name.
pub trait Shelf {
    /// The names and the bytes that stand under them, where the shelf tells them.
    ghost files: { Self → Option (List (List ℕ × List ℕ)) };

    /// How often a fetch has failed.
    ghost faults: { Self → ℕ };

    /// Puts the bytes of the file of that name in place of what `into` holds. Where the file isn't handed out, `into`
    /// stays as it is.
    ///
    /// # Errors
    ///
    /// `TooLong` exactly where there are more than `MOST_FILE_BYTES` bytes, and `NoMemory` where a growth was refused.
    fn fetch(&mut self, name: &str, into: &mut Vec<u8>) -> Result<Found, FetchFault>
        ensures files { files self.new ≡ files self.old }
        ensures told { IfSome (files self.old)
            (λ held. Fetched (file_of name.now held) result into.new.items) }
        ensures into { Filled result into.old.items into.new.items }
        ensures cause { HasFetchCause (faults self.old) (faults self.new) result };
}
