//! Which panels are next to one another, and where things of two panels stand in a list.

/// The panels on the left and on the right of a panel; none where it is alone.
pub(crate) fn neighbours(panels: u8, panel: u8) -> Option<[u8; 2]> {
    if panels <= 1 {
        return None;
    }
    let left = if panel == 1 {
        panels
    } else {
        panel.saturating_sub(1)
    };
    let right = if panel == panels {
        1
    } else {
        panel.saturating_add(1)
    };
    Some([left, right])
}

/// Whether a panel is next to another.
pub(crate) fn are_neighbours(panels: u8, panel: u8, other: u8) -> bool {
    match neighbours(panels, panel) {
        Some(both) => other == both[0] || other == both[1],
        None => false,
    }
}

/// The place of what is of two panels in a list of 64, by the one and then by the other.
pub(crate) fn place_between(panel: u8, other: u8) -> usize {
    let row = (panel as usize).saturating_sub(1).saturating_mul(8);
    row.saturating_add((other as usize).saturating_sub(1))
}
