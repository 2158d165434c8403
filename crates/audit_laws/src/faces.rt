ghost use Rattle.audit_laws.specs.ToldFaces.{FaceIsTold, FacesAreTold, LengthIsTold};

/// **After each tick the text of a run shows the faces of the run**: a tick that it has no step for changed none.
pub fn faces_are_told()
    ensures all { FacesAreTold }
    ensures each { FaceIsTold }
{}

/// The timeline of a run is as long as its record.
pub fn lengths_are_told()
    ensures { LengthIsTold }
{}
