// Which driver shares with which task.
ghost use Rattle.std.specs.Prelude.{◌≡◌};
ghost use Rattle.ecode.specs.Sheets.{shares};

use crate::sheet::Sheet;

// Whether driver d shares with task t: it reads a port that the task owns or writes a port that the task reads.
pub fn sharing(sheet: &Sheet, d: u8, t: u8) -> bool
    ensures { result ≡ shares sheet.now d t }
{
    let (Some(driver), Some(task)) = (
        sheet.driver_ports.get(usize::from(d)),
        sheet.task_ports.get(usize::from(t)),
    ) else {
        return false;
    };
    driver.reads & task.owns != 0 || driver.writes & task.sees != 0
}
