/// What a piece of cable is at.
#[derive(Clone, Copy, Debug, Default, PartialEq, Eq)]
pub enum PieceState {
    #[default]
    Sound,
    Open,
    Short,
}
