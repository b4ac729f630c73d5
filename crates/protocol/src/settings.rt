ghost use Rattle.std.specs.Prelude.{◌^◌, ◌≤◌};

// Settings as they are asked for, in range or not. Times count in nanoseconds.
#[derive(Clone, Copy, Debug, PartialEq, Eq)]
pub struct Asked {
    pub ports: u64,
    pub accept: u64,
    pub quantum: u64,
    pub start: u64,
}

// What a platform is made with, all in range.
#[derive(Clone, Copy, Debug, PartialEq, Eq)]
pub struct Settings {
    pub ports: u64,
    pub accept: u64,
    pub quantum: u64,
    pub start: u64,
    ghost few: { (1 ≤ ports) × (ports ≤ 8) },
    ghost soon: { accept ≤ 1000 },
    ghost paced: { (1 ≤ quantum) × (quantum ≤ 1000000) },
    ghost early: { start ≤ 2 ^ 40 },
}
