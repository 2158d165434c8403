ghost use Rattle.std.specs.Prelude.{◌≡◌, ℕ};

/// What says something of each of some points, which stand in an order of their own.
pub trait Several: Copy + Default {
    /// What is said of one point.
    type Item: Copy + Default;

    /// What is said of the point at a place in this order, counted from 0.
    ghost item_at: { Self → ℕ → Self.Item };

    /// What is said of the point at a place in this order, counted from 0.
    fn item_at(&self, place: u8) -> Self::Item
        ensures { result ≡ item_at self.now place };

    /// What says this of its first point.
    fn one(item: Self::Item) -> Self
        ensures { item_at result 0 ≡ item };
}
