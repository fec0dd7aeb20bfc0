// The figures shown of the definitions, gathered in one statement.
ghost use Rattle.machine.specs.Figures.{Figures};

use host::figures::check_figures;

pub fn figures_hold()
    ensures { Figures }
{
    check_figures();
}
