ghost use Rattle.std.specs.Prelude.{◌≡◌};
ghost use Rattle.desk_requests.specs.Paths.{is_posted as is_posted_route};

/// What is asked for.
#[derive(Clone, Copy, Debug, PartialEq, Eq)]
pub enum Route {
    /// The face of a panel, by the panel's number.
    Face(u8),
    /// A tick to be run.
    Ticks,
    /// The profile table.
    Table,
    /// A visit to be kept.
    Visits,
    /// The points that weren't tested since a day.
    Untested(u32),
    /// The end of serving.
    Stop,
}

impl Route {
    // Whether it is asked for with a body, by the method POST; the others are asked for by GET.
    pub(crate) fn is_posted(self) -> bool
        ensures { result ≡ is_posted_route self }
    {
        match self {
            Route::Ticks | Route::Visits | Route::Stop => true,
            Route::Face(_) | Route::Table | Route::Untested(_) => false,
        }
    }
}
