// Figures that were worked by hand, held against the definitions that all contracts cite.
#![tactic(auto)]

ghost use Rattle.figures.specs.Figures.{WorkedFigures};

// The eleven figures as one statement. There is nothing to compute: that it is proved is the point.
pub fn worked_figures()
    ensures { WorkedFigures }
{}
