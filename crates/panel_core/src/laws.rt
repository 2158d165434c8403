ghost use Rattle.panel_core.specs.PowerCuts.{FrontsHoldAcknowledged};
ghost use Rattle.panel_core.specs.ShownFaces.{FacesArePinned};

/// **What was acknowledged outlives a power cut**: each front of a run has the changes of all operations that were
/// answered as done and of all entries that a counter shows, and then at most one whole batch more.
pub fn fronts_hold_acknowledged()
    ensures { FrontsHoldAcknowledged }
{}

/// **What a face shows is pinned**: of two faces of a panel that meet what `System::face` says, over a run that the
/// system stands for, each field is the same. So no body passes that shows anything else.
pub fn faces_are_pinned()
    ensures { FacesArePinned }
{}
