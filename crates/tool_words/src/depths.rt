ghost use Rattle.std.specs.Prelude.{◌≤◌};

/// How many values are kept of each key: 1 to 1,024.
#[derive(Debug, Clone, Copy, PartialEq, Eq)]
pub struct Depth {
    pub count: u32,
    ghost some: { 1 ≤ count },
    ghost few: { count ≤ 1024 },
}
