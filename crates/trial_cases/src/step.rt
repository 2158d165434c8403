/// A step of a history.
#[derive(Clone, Copy)]
pub struct Step<'a> {
    /// The tick in which it comes.
    pub tick: u64,
    pub words: &'a str,
}
