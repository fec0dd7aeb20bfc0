// Figures of the static check, shown of its definitions.
ghost use Rattle.host.specs.Figures.{CheckFigures};

pub fn check_figures()
    ensures { CheckFigures }
{}
