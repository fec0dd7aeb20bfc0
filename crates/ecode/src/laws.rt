// Laws of the definitions, each the contract of a function.
ghost use Rattle.ecode.specs.Laws.{FuturesPart};
ghost use Rattle.ecode.specs.Sheets.{SheetRules};

use crate::sheet::Sheet;

// A future's kept set has fewer members than the tasks held exactly when it leaves one of them to its binding.
pub fn futures_part()
    ensures { FuturesPart }
{}

// Every sheet keeps the rules of a sheet.
pub fn sheet_keeps_rules(sheet: &Sheet)
    ensures { SheetRules sheet.now }
{}
