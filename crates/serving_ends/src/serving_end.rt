ghost use Rattle.std.specs.Prelude.{◌≡◌, false, true};

/// How serving ended.
#[derive(Clone, Copy)]
pub struct ServingEnd {
    /// How many connections were handed back.
    pub served: u32,
    /// Whether the door failed.
    pub failed: bool,
}

impl ServingEnd {
    /// The end of serving that ended by itself, with so many connections handed back.
    pub fn whole(served: u32) -> ServingEnd
        ensures { result ≡ record { served = served; failed = false } }
    {
        ServingEnd {
            served,
            failed: false,
        }
    }

    /// The door failed, with so many connections handed back.
    pub fn at_door(served: u32) -> ServingEnd
        ensures { result ≡ record { served = served; failed = true } }
    {
        ServingEnd {
            served,
            failed: true,
        }
    }
}
