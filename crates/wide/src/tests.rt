// The wide drive at the ends of its values and of its sheet.
ghost use Rattle.std.specs.Prelude.{◌<◌};

use crate::wide_host::WideHost;
use host::host::Host;

const LEAST: i32 = i32::MIN;

const MOST: i32 = i32::MAX;

#[test]
fn drivers_copy(rt: HostRuntime) {
    let mut host = WideHost::new();
    for driver in 0u8..9 {
        for value in [LEAST, -1, MOST] {
            host.put(16 + driver, value);
            host.drive(driver);
            assert_eq!(rt; host.look(driver), value);
        }
    }
}

// What task `task` makes of two readings.
fn worked(host: &mut WideHost, task: u8, own: i32, sample: i32) -> i32
    requires { task < 8 }
{
    host.put(task, own);
    host.put(8, sample);
    host.work(task);
    host.look(16 + task)
}

#[test]
fn tasks_halve(rt: HostRuntime) {
    let mut host = WideHost::new();
    for task in 0u8..8 {
        assert_eq!(rt; worked(&mut host, task, LEAST, LEAST), LEAST);
        assert_eq!(rt; worked(&mut host, task, MOST, MOST), MOST - 1);
        assert_eq!(rt; worked(&mut host, task, 3, -3), 0);
        assert_eq!(rt; worked(&mut host, task, 9, 100), 54);
    }
}

#[test]
fn off_the_sheet(rt: HostRuntime) {
    let mut host = WideHost::new();
    host.put(25, -1);
    assert!(rt; host.test(0) && !host.test(1));
    host.put(26, 5);
    host.put(255, 5);
    host.drive(9);
    host.work(8);
    assert_eq!(rt; host.look(26), 0);
    assert_eq!(rt; host.look(255), 0);
    assert_eq!(rt; host.look(25), -1);
}
