ghost use Rattle.face_reading.specs.ReadingLaws.{TextsAreTheirOwn};

/// No two timelines in form have one text: whatever reads a text exactly reads back what was told.
pub fn texts_are_their_own()
    ensures { TextsAreTheirOwn }
{}
