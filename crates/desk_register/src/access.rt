ghost use Rattle.std.specs.Prelude.{◌≡◌, option_map};
ghost use Rattle.access_levels.specs.Levels.{level_of as level_opened};

use access_levels::level_of;
use site_types::{Label, Site};

// The least level of a code with which a visit is put and serving ends.
pub(crate) const NEEDED_LEVEL: u8 = 3;

// The level that a code opens, or none.
pub(crate) fn level_by(code: &Option<Label>, site: &Site) -> u8
    ensures { result ≡ level_opened site.now (option_map (λ label. label.bytes) code.now) }
{
    match code {
        None => level_of(None, site),
        Some(label) => level_of(Some(label.as_str()), site),
    }
}
