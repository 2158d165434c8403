ghost use Rattle.std.specs.Prelude.{◌≡◌, false};

use desk_doors::MemoryDoor;
use panel_edges::{MemoryDisk, MemoryShelf, Sink, Source};
use panel_program::panel;
use program_status::Outcome;
use service_keepers::MemoryKeeper;
use std::alloc::Global;

/// All that the call `panel` is made over.
#[derive(Drop)]
pub struct Forms<S: Drop, K: Drop> {
    pub shelf: MemoryShelf,
    pub input: S,
    pub out: K,
    pub disk: MemoryDisk,
    /// The disk on which a move makes the new journal.
    pub target: MemoryDisk,
    pub door: MemoryDoor,
    pub keeper: MemoryKeeper,
}

impl<S: Source + Drop, K: Sink + Drop> Forms<S, K> {
    /// Calls `panel` with these words.
    pub fn call(&mut self, alloc: Global, words: &[String]) -> Outcome
        requires { self.old.door.is_out ≡ false }
    {
        panel(
            alloc,
            words,
            &mut self.shelf,
            &mut self.input,
            &mut self.out,
            &mut self.disk,
            &mut self.target,
            &mut self.door,
            &mut self.keeper,
        )
    }
}
