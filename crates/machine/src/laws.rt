// The laws of runs, each the contract of a function. They hold of the reference runner, for every list of calls.
ghost use Rattle.machine.specs.Agreement.{DriverPortsAgree};
ghost use Rattle.machine.specs.Begins.{RowsAreEight};
ghost use Rattle.machine.specs.Growth.{NothingGrows};
ghost use Rattle.machine.specs.Loops.{LoopsEnd};
ghost use Rattle.machine.specs.Windows.{WindowsAreKept};
ghost use Rattle.machine.specs.Work.{WorkIsBounded};

// Under the earliest deadline, while tasks keep their budgets, no tick stops the run, and from each release the first call that
// shares with the task comes at the end of its window and finds it ended.
pub fn windows_are_kept()
    ensures { WindowsAreKept }
{}

// No tick runs more instructions than tasks times the length of the program, and no more bindings wait than there are tasks.
pub fn work_is_bounded()
    ensures { WorkIsBounded }
{}

// Policies and the ends of tasks do not show at the driver ports.
pub fn driver_ports_agree()
    ensures { DriverPortsAgree }
{}

// Every number in a state that a run comes to is within bounds that the program and the sheet alone give.
pub fn nothing_grows()
    ensures { NothingGrows }
{}

// A program that the check accepts, and the first program of a bench, has rows of eight cells, as a run asks of it.
pub fn rows_are_eight()
    ensures { RowsAreEight }
{}

// A thread comes to its return or stop, and a tick to where no binding is due.
pub fn loops_end()
    ensures { LoopsEnd }
{}
