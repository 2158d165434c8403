/// Which of a zone's points are looked at.
#[derive(Clone, Copy)]
pub enum Kind {
    Any,
    Detector,
    CallPoint,
}
