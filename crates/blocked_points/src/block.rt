/// A kind of setting that blocks points.
#[derive(Clone, Copy)]
pub enum Block {
    PointOff,
    ZoneOff,
    InTest,
}
