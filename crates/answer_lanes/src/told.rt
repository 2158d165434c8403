/// What findings tell of zones: masks with bit `number - 1` of a zone, as a [`coincidence_rules::Finding`] has them.
#[derive(Clone, Copy, Debug, Default)]
pub struct Told {
    pub counted: u32,
    pub confirmed: u32,
    pub manual: u32,
    pub released: u32,
}
