ghost use Rattle.later_operations.specs.Faults.{FaultsStay, OutsideStays};

/// What is done in a tick or later changes none of the faults that a panel showed up to that tick.
pub fn faults_stay()
    ensures { FaultsStay }
{}

/// What is done in a tick or later changes nothing of what stood up to that tick besides missing points.
pub fn outside_stays()
    ensures { OutsideStays }
{}
