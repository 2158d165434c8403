//! Which markers depend on a fact, or on a marker: by their terms, or by those of other markers.

ghost use Rattle.std.specs.Prelude.{◌≡◌, ◌≤◌, ◌||◌, List, ℕ};
ghost use Rattle.site_types.specs.Valid.{IsValid};
ghost use Rattle.site_types.specs.declared.site.Site.{Site as SiteOf};
ghost use Rattle.marker_table.specs.Equations.{values_of};
ghost use Rattle.cause_effect.specs.Orders.{IsOrder};
ghost use Rattle.cause_effect.specs.Users.{AreMarksOfChange, AreUsersOf, faults_from, is_user, uses_word};

use marker_table::{Facts, Values};
use site_types::with_bit_32;
use tick_units::Items;

// Where in the one table the users of call points, of markers and of faults begin, behind those of the 256 zones, and
// how many places there are.
pub(crate) const MANUAL_FROM: usize = 256;

pub(crate) const MARKERS_FROM: usize = 512;

pub(crate) const FAULTS_FROM: usize = 768;

pub(crate) const PLACES: usize = 776;

/// For each fact and each marker, the markers that depend on it: those of the 256 zones, of their call points, of the
/// 256 markers and of the faults of 8 panels. A set of markers stands as the values in which their places in the order
/// are true.
#[derive(Drop)]
pub(crate) struct Users {
    pub(crate) sets: Items<Values>,
}

impl Users {
    // Marks the markers that depend on a fact that changed.
    pub(crate) fn marks_of(&self, before: &Facts, after: &Facts) -> Values
        ensures { (site : SiteOf) (order : List ℕ) → IsValid site → IsOrder site order
            → AreUsersOf site order self.now.sets
            → AreMarksOfChange site before.now after.now order (values_of result) }
    {
        let mut marks = Values::none();
        for panel in 0..8 {
            self.mark_word(
                32 * panel,
                before.zones[panel],
                after.zones[panel],
                &mut marks,
            );
            self.mark_word(
                MANUAL_FROM + 32 * panel,
                before.manual[panel],
                after.manual[panel],
                &mut marks,
            );
        }
        self.mark_word(
            FAULTS_FROM,
            before.faults as u32,
            after.faults as u32,
            &mut marks,
        );
        marks
    }

    // Marks the users of the bits that differ in two masks, the first bit's being at a place.
    fn mark_word(&self, first: usize, before: u32, after: u32, marks: &mut Values)
        requires { first ≤ faults_from }
        ensures { (m : ℕ) → values_of marks.new m
            ≡ (values_of marks.old m || uses_word self.now.sets first before after m) }
    {
        let mut left = before ^ after;
        while left != 0 {
            let bit = left.trailing_zeros() as u8;
            self.mark(first + bit as usize, marks);
            left = with_bit_32(left, bit, false);
        }
    }

    // Marks the users of what is at a place.
    fn mark(&self, place: usize, marks: &mut Values)
        ensures { (m : ℕ) → values_of marks.new m
            ≡ (values_of marks.old m || is_user self.now.sets place m) }
    {
        if let Some(users) = self.sets.get(place) {
            marks.join(users);
        }
    }
}
