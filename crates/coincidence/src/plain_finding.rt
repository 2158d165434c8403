/// What is found of an answer: it tells plainly of the zone of its point or of none, and its point is missing or not.
#[derive(Clone, Copy)]
pub struct PlainFinding {
    pub telling: bool,
    pub missing: bool,
}
