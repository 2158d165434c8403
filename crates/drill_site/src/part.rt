/// A list of the site file.
#[derive(Clone, Copy)]
pub(crate) enum Part {
    Loops,
    Zones,
    Points,
    Outputs,
    Markers,
}
