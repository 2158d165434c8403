ghost use Rattle.std.specs.Prelude.{◌≡◌, ◌<◌, ◌==◌, ℕ, false, slice_index, slice_index_or};
ghost use Rattle.std.specs.List.{list_any};
ghost use Rattle.site_types.specs.Sections.{section_of_piece};

/// For each piece the place at which its section begins.
pub(crate) fn begins_of(isolators: &[u8]) -> [u8; 256]
    ensures { (piece : ℕ) → piece < 256
        → slice_index result piece ≡ section_of_piece isolators.now piece }
{
    let isolates = places_of(isolators);
    let mut begins = [0; 256];
    let mut place = 0;
    for piece in 0..256 {
        if isolates[piece] {
            place = piece as u8;
        }
        begins[piece] = place;
    }
    begins
}

// Which places are isolators.
fn places_of(isolators: &[u8]) -> [bool; 256]
    ensures { (place : ℕ) → place < 256
        → slice_index_or result place false ≡ list_any (λ isolator. isolator == place)
        isolators.now }
{
    let mut isolates = [false; 256];
    for isolator in isolators {
        isolates[*isolator as usize] = true;
    }
    isolates
}
