//! The zones that a face shows of other panels.

use face_text::Face;

/// How many zones of other panels a face has in alarm.
pub(crate) fn zones_of_others(face: &Face) -> u64 {
    let mut count: u64 = 0;
    let mut panel: u8 = 0;
    for zones in face.zones {
        panel = panel.saturating_add(1);
        if panel != face.panel {
            count = count.saturating_add(zones.count_ones() as u64);
        }
    }
    count
}
