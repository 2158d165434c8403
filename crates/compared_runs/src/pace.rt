/// How much befalls in a drawn record.
#[derive(Clone, Copy)]
pub struct Pace {
    /// How many ticks the record has.
    pub ticks: u64,
    /// In one of so many ticks points and the like are reported, and in one of twice so many operations asked for.
    pub one_in: u64,
}
