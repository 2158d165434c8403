use site_document::KeyText;
use site_types::Thing;

/// What a zone, a point, an output or a marker claims for itself alone.
#[derive(Drop)]
pub struct Claim {
    /// Its name, among the names of the site.
    pub name: KeyText,
    /// Its kind, panel, loop and number or address, for all but a marker.
    pub number: Option<[u8; 4]>,
    pub thing: Thing,
}
