ghost use Rattle.std.specs.Prelude.{◌≡◌};
ghost use Rattle.site_document.specs.declared.refusal.SiteRefusal.TheVariants.{NoMemory};

use crate::key_text::KeyText;
use site_types::Label;
use std::alloc::AllocError;

/// Why a site file is refused. Keys are written `zone[2].panel`, places counted from 1.
#[derive(Drop)]
pub enum SiteRefusal {
    /// The bytes are no TOML document.
    NotToml,
    /// A needed key is absent.
    Missing(KeyText),
    /// A value has another kind than its key asks, or a text isn't of its form.
    WrongKind(KeyText),
    /// A key isn't one of its table, or isn't one for this type or kind.
    Unknown(KeyText),
    /// A number is outside its range, with that number; or a list is too long or empty, with its length.
    OutOfRange(KeyText, i64),
    /// A name, number or address occurs a second time, with the name of the later one.
    Twice(KeyText),
    /// A name or number names nothing of its kind.
    NoSuch(KeyText),
    /// A section of a loop, which begins at the isolator place, holds points of two zones.
    SectionCrossesZones { panel: u8, line: u8, place: u8 },
    /// The partner of this zone is itself, has another type, or doesn't name it as its own partner.
    PartnerNotMutual(Label),
    /// The file has more than 1,048,576 bytes.
    TooLong,
    /// Memory ran out; nothing is said of the file.
    NoMemory,
}

impl From<AllocError> for SiteRefusal {
    ghost from_gives = { λ _ e. e ≡ NoMemory };

    fn from(_refused: AllocError) -> SiteRefusal {
        SiteRefusal::NoMemory
    }
}
