ghost use Rattle.panel_laws.specs.MarkerLaws.{OneSolution, SolutionSolves};

/// Where no marker depends on itself, the values by which outputs are asked satisfy the equation of each marker.
pub fn solution_solves()
    ensures { SolutionSolves }
{}

/// There are no other values that do.
pub fn one_solution()
    ensures { OneSolution }
{}
