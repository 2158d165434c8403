/// Why a body isn't read.
#[derive(Clone, Copy, Debug, PartialEq, Eq)]
pub enum BodyRefusal {
    /// It isn't of its form.
    BadForm,
    NoMemory,
}
