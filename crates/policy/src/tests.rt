// What the three policies choose at ties, from a single task, and when nothing is pending.
use crate::{Earliest, LowestNumber, PendingTask, Policy, Steady};

const ONLY_SIX: [PendingTask; 1] = [PendingTask { task: 6, left: 0 }];

// Tasks 5, 3 and 6 are tied, and task 1 has more time.
const TIED: [PendingTask; 4] = [
    PendingTask { task: 5, left: 4 },
    PendingTask { task: 3, left: 4 },
    PendingTask { task: 1, left: 9 },
    PendingTask { task: 6, left: 4 },
];

const SEVEN_SOONER: [PendingTask; 2] = [
    PendingTask { task: 6, left: 3 },
    PendingTask { task: 7, left: 2 },
];

// Task 3 stands twice, once with time to spare and once tied with task 5.
const THREE_TWICE: [PendingTask; 3] = [
    PendingTask { task: 3, left: 9 },
    PendingTask { task: 5, left: 4 },
    PendingTask { task: 3, left: 4 },
];

#[test]
fn earliest_takes_the_lower_number_of_the_tied(rt: HostRuntime) {
    let mut policy = Earliest::new();
    assert_eq!(rt; policy.choose(&[]), None);
    assert_eq!(rt; policy.choose(&ONLY_SIX), Some(6));
    assert_eq!(rt; policy.choose(&TIED), Some(3));
    assert_eq!(rt; policy.choose(&SEVEN_SOONER), Some(7));
    assert_eq!(rt; policy.choose(&THREE_TWICE), Some(3));
}

#[test]
fn steady_begins_with_the_lower_number_of_the_tied(rt: HostRuntime) {
    let mut policy = Steady::new();
    assert_eq!(rt; policy.choose(&[]), None);
    assert_eq!(rt; policy.choose(&TIED), Some(3));
}

#[test]
fn steady_stays_on_a_tie_even_after_nothing_was_pending(rt: HostRuntime) {
    let mut policy = Steady::new();
    assert_eq!(rt; policy.choose(&ONLY_SIX), Some(6));
    assert_eq!(rt; policy.choose(&TIED), Some(6));
    assert_eq!(rt; policy.choose(&[]), None);
    assert_eq!(rt; policy.choose(&TIED), Some(6));
}

#[test]
fn steady_leaves_for_an_earlier_deadline(rt: HostRuntime) {
    let mut policy = Steady::new();
    assert_eq!(rt; policy.choose(&ONLY_SIX), Some(6));
    assert_eq!(rt; policy.choose(&SEVEN_SOONER), Some(7));
    assert_eq!(rt; policy.choose(&TIED), Some(3));
    assert_eq!(rt; policy.choose(&THREE_TWICE), Some(3));
}

#[test]
fn lowest_number_ignores_the_deadlines(rt: HostRuntime) {
    let mut policy = LowestNumber::new();
    assert_eq!(rt; policy.choose(&[]), None);
    assert_eq!(rt; policy.choose(&ONLY_SIX), Some(6));
    assert_eq!(rt; policy.choose(&TIED), Some(1));
    assert_eq!(rt; policy.choose(&SEVEN_SOONER), Some(6));
    assert_eq!(rt; policy.choose(&THREE_TWICE), Some(3));
}
