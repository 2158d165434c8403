ghost use Rattle.std.specs.Prelude.{◌≡◌, ◌≤◌, ◌+◌, ◌++◌, [], ◌∷◌, length};
ghost use Rattle.answer_lanes.specs.Runs.{HasShortCount, front_of, items_of, rest_of};

use crate::several::Several;
use arrayvec::ArrayVec;

/// Items of points that stand in the order of a group or of a block.
#[derive(Clone, Copy, Debug, Default)]
pub struct Run<S: Copy> {
    /// What tells each item, by its place behind the first one.
    pub first: S,
    /// How many of its items were taken already.
    pub taken: u8,
    /// How many are left.
    pub count: u8,
}

impl<S: Several> Run<S> {
    /// An item by itself.
    pub fn one(item: S::Item) -> Run<S>
        ensures items { items_of S.item_at result ≡ item ∷ [] }
        ensures short { (result.taken ≡ 0) × (result.count ≡ 1) }
    {
        Run {
            first: S::one(item),
            taken: 0,
            count: 1,
        }
    }

    /// The item at a place of the run as it began.
    pub fn item(&self, place: u8) -> S::Item
        ensures { result ≡ S.item_at self.now.first place }
    {
        self.first.item_at(place)
    }

    // Puts its items behind those in a list.
    pub(crate) fn put_all(&self, into: &mut ArrayVec<S::Item, 32>)
        requires run { HasShortCount self.now }
        requires room { length into.old.items + self.now.count ≤ 32 }
        ensures { into.new.items ≡ into.old.items ++ items_of S.item_at self.now }
    {
        for place in self.taken..self.taken + self.count {
            let _room = into.try_push(self.item(place));
        }
    }

    // The run's first items, at most so many.
    pub(crate) fn front(&self, most: u8) -> Run<S>
        ensures { result ≡ front_of most self.now }
    {
        Run {
            first: self.first,
            taken: self.taken,
            count: self.count.min(most),
        }
    }

    // What is left of it behind so many items.
    pub(crate) fn rest(&self, items: u8) -> Run<S>
        requires run { HasShortCount self.now }
        requires within { items ≤ self.now.count }
        ensures { result ≡ rest_of items self.now }
    {
        Run {
            first: self.first,
            taken: self.taken + items,
            count: self.count - items,
        }
    }
}
