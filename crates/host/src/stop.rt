// An end stop, and a table of them.
ghost use Rattle.std.specs.Prelude.{◌≡◌, ◌≤◌, length};

// A driver port with the bounds that it is held within.
#[derive(Clone, Copy, Default)]
pub struct Stop {
    pub port: u8,
    pub low: i32,
    pub high: i32,
}

// Up to four stops, the first `count` of `stops`. Plain fields and `Copy`, as the project's rule has it, and so no `ArrayVec`.
#[derive(Clone, Copy)]
pub struct StopTable {
    pub(crate) stops: [Stop; 4],
    pub(crate) count: usize,
    ghost few: { count ≤ 4 },
    ghost long: { length stops ≡ 4 },
}
