// The pitch drive, bare and under end stops, at the ends of its values and of its sheet.
use crate::end_stops::EndStops;
use crate::host::Host;
use crate::pitch_host::PitchHost;
use crate::stop::{Stop, StopTable};
use ecode::port::PortKind;
use ecode::sheet::{DriverPorts, Sheet, TaskPorts};
use std::test::Fail;

const LEAST: i32 = i32::MIN;

const MOST: i32 = i32::MAX;

fn stop(port: u8, low: i32, high: i32) -> Stop {
    Stop { port, low, high }
}

// Ports 2 and 4 held, and names that are ignored before, between and after: a sensor, a low above its high, a port that the
// sheet lacks, a port again and a task port.
fn names() -> [Stop; 7] {
    [
        stop(0, -1, 1),
        stop(2, 5, 4),
        stop(2, -50, 50),
        stop(8, -1, 1),
        stop(2, -1, 1),
        stop(5, -1, 1),
        stop(4, -7, -7),
    ]
}

// Looks at a port after a driver was called with a value at the port that it reads.
fn driven<H: Host>(host: &mut H, from: u8, value: i32, driver: u8, to: u8) -> i32 {
    host.put(from, value);
    host.drive(driver);
    host.look(to)
}

// The same of a task.
fn worked<H: Host>(host: &mut H, from: u8, value: i32, task: u8, to: u8) -> i32 {
    host.put(from, value);
    host.work(task);
    host.look(to)
}

#[test]
fn drivers_copy(rt: HostRuntime) {
    let mut host = PitchHost::new();
    for value in [LEAST, -1, MOST] {
        assert_eq!(rt; driven(&mut host, 0, value, 0, 3), value);
        assert_eq!(rt; driven(&mut host, 6, value, 1, 2), value);
        assert_eq!(rt; driven(&mut host, 5, value, 2, 4), value);
    }
}

#[test]
fn tasks_compute(rt: HostRuntime) {
    let mut host = PitchHost::new();
    assert_eq!(rt; worked(&mut host, 2, LEAST, 0, 5), 1_000);
    assert_eq!(rt; worked(&mut host, 2, MOST, 0, 5), -1_000);
    assert_eq!(rt; worked(&mut host, 2, 9_001, 0, 5), -1);
    host.put(3, LEAST);
    assert_eq!(rt; worked(&mut host, 7, LEAST, 1, 6), LEAST);
    host.put(3, MOST);
    assert_eq!(rt; worked(&mut host, 7, MOST, 1, 6), MOST - 1);
    host.put(3, -3);
    assert_eq!(rt; worked(&mut host, 7, 3, 1, 7), 0);
}

#[test]
fn off_the_sheet(rt: HostRuntime) {
    let mut host = EndStops::new(PitchHost::new(), &names());
    host.put(1, MOST);
    assert!(rt; host.test(0) && !host.test(1));
    host.put(8, 5);
    host.put(255, 5);
    host.drive(3);
    host.work(2);
    assert_eq!(rt; host.look(8), 0);
    assert_eq!(rt; host.look(255), 0);
    assert_eq!(rt; host.look(1), MOST);
}

#[test]
fn ports_are_held(rt: HostRuntime) {
    let mut host = EndStops::new(PitchHost::new(), &names());
    for value in [LEAST, -1, MOST] {
        assert_eq!(rt; driven(&mut host, 0, value, 0, 3), value);
        assert_eq!(rt; driven(&mut host, 6, value, 1, 2), value.clamp(-50, 50));
        assert_eq!(rt; driven(&mut host, 5, value, 2, 4), -7);
    }
    // what is put is not held, nor is a port that the driver does not write
    host.put(2, MOST);
    host.drive(0);
    assert_eq!(rt; host.look(2), MOST);
}

// The layer above has the last word, whichever of the two orders its names have.
#[test]
fn layers_over_layers(rt: HostRuntime) {
    let above = [stop(4, 10, 20), stop(2, 60, 70)];
    let turned = [above[1], above[0]];
    let mut host = EndStops::new(EndStops::new(PitchHost::new(), &names()), &above);
    let mut other = EndStops::new(EndStops::new(PitchHost::new(), &names()), &turned);
    let mut bare = PitchHost::new();
    for value in [LEAST, MOST] {
        assert_eq!(rt; driven(&mut host, 6, value, 1, 2), 60);
        assert_eq!(rt; driven(&mut other, 6, value, 1, 2), 60);
        assert_eq!(rt; driven(&mut host, 5, value, 2, 4), 10);
        assert_eq!(rt; driven(&mut other, 5, value, 2, 4), 10);
        assert_eq!(rt;
            worked(&mut host, 2, value, 0, 5),
            worked(&mut bare, 2, value, 0, 5)
        );
        assert_eq!(rt;
            worked(&mut host, 7, value, 1, 6),
            worked(&mut bare, 7, value, 1, 6)
        );
    }
}

// Six driver ports, and nothing that writes them.
fn wide_sheet() -> Sheet {
    Sheet {
        ports: 6,
        kinds: [PortKind::Driver; 32],
        drivers: 0,
        driver_ports: [DriverPorts::NONE; 32],
        tasks: 1,
        task_ports: [TaskPorts::NONE; 8],
        conditions: 0,
        looks: [0; 16],
    }
}

// The first four valid names, and no fifth.
#[test]
fn four_names_are_kept(rt: HostRuntime) -> Result<(), Fail> {
    let names = [
        stop(5, 0, 0),
        stop(6, 0, 0),
        stop(4, 0, 0),
        stop(3, 1, 0),
        stop(3, 0, 0),
        stop(2, 0, 0),
        stop(1, 0, 0),
    ];
    let table = StopTable::new(&wide_sheet(), &names);
    let [a, b, c, d] = table.in_use() else {
        return Err(Fail::new("not four are kept"));
    };
    assert!(rt; a.port == 5 && b.port == 4 && c.port == 3 && d.port == 2);
    Ok(())
}
