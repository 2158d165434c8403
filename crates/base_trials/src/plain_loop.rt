//! A plain reading of the rule by which the addresses of a loop are reached.

use site_types::PieceState;
use std::alloc::{AllocError, Global};

/// The cable of a loop: a short takes out its section, an open piece nothing but itself.
#[derive(Drop)]
pub(crate) struct PlainLoop {
    /// The state of each piece, the first one before address 1.
    cable: Vec<PieceState>,
    /// The addresses that have an isolator behind them.
    isolators: Vec<u8>,
}

impl PlainLoop {
    /// A loop of which one piece isn't sound.
    pub(crate) fn new(
        alloc: Global,
        last: u8,
        isolators: &[u8],
        piece: u8,
        state: PieceState,
    ) -> Result<PlainLoop, AllocError> {
        let mut cable = vec![in alloc; PieceState::Sound; last as usize + 1]?;
        if let Some(place) = cable.get_mut(piece as usize) {
            *place = state;
        }
        let isolators = isolators.to_vec(alloc)?;
        Ok(PlainLoop { cable, isolators })
    }

    // How many isolators stand before a piece: the number of its section.
    fn section_of_piece(&self, piece: usize) -> usize {
        self.isolators
            .iter()
            .filter(|isolator| **isolator as usize <= piece)
            .count()
    }

    // How many isolators stand before an address.
    fn section_of_address(&self, address: usize) -> usize {
        self.isolators
            .iter()
            .filter(|isolator| (**isolator as usize) < address)
            .count()
    }

    fn holds_short(&self, section: usize) -> bool {
        for (piece, state) in self.cable.iter().enumerate() {
            if self.section_of_piece(piece) == section && *state == PieceState::Short {
                return true;
            }
        }
        false
    }

    // Whether all pieces from one up to another can be passed.
    fn passes(&self, from: usize, to: usize) -> bool {
        for (piece, state) in self.cable.iter().enumerate() {
            let is_within = from <= piece && piece < to;
            if is_within
                && (*state == PieceState::Open || self.holds_short(self.section_of_piece(piece)))
            {
                return false;
            }
        }
        true
    }

    /// Whether an address is reached from either end.
    pub(crate) fn reaches(&self, address: usize) -> bool {
        !self.holds_short(self.section_of_address(address))
            && (self.passes(0, address) || self.passes(address, self.cable.len()))
    }
}
