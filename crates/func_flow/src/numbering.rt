//! How many items there are of each kind.

ghost use Rattle.std.specs.Prelude.{◌^◌, ◌<◌, ◌≤◌};

/// How many numbers nodes have, and how many globals and locals there are. The items have numbers by these.
#[derive(Clone, Copy, Drop)]
pub(crate) struct Numbering {
    pub(crate) nodes: usize,
    pub(crate) globals: usize,
    pub(crate) locals: usize,
    ghost some: { 0 < nodes },
    ghost few: { nodes ≤ 2 ^ 20 },
    ghost small: { globals ≤ 2 ^ 32 },
    ghost short: { locals ≤ 2 ^ 32 },
}
