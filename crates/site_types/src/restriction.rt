/// What may be retained of a thing of a site, each of things of one kind.
#[derive(Clone, Copy)]
pub enum Restriction {
    PointOff,
    ZoneOff,
    OutputOff,
    InTest,
}
