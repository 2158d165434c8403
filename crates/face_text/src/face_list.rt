/// A list of a face in JSON: names of zones, outputs or points that are so, or what is faulty or disabled
/// with its kind in front.
#[derive(Clone, Copy)]
pub enum FaceList {
    Zones,
    Firsts,
    Faults,
    Outputs,
    Disabled,
    Tests,
}
