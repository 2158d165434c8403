/// What a signal of a zone is wanted for.
#[derive(Clone, Copy, PartialEq)]
pub(crate) enum Wanted {
    /// To be shown.
    Shown,
    /// For outputs: in a zone of type C only by a call point or a second point.
    Out,
    /// By hand: by a call point alone.
    ByHand,
}
