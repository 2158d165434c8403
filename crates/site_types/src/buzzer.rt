/// What the buzzer of a panel sounds.
#[derive(Clone, Copy, Debug, Default, PartialEq, Eq)]
pub enum Buzzer {
    #[default]
    Off,
    Fault,
    Fire,
}
