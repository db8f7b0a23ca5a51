//! Tables of the locations that the positions of a body read, check and write.

ghost use Rattle.std.specs.Prelude.{◌≡◌, ◌↔◌, IsTrue, length};
ghost use Rattle.flow_domain.specs.LocTables.{ChecksIn, IsRowAt, ReadsIn, WritesIn};

use std::marker::Model;
use wasm_types::{Loc, Pos};

/// A location that a position uses, and how: whether it reads it, whether the location decides if it traps, and whether it writes it.
#[derive(Clone, Copy, Debug, PartialEq, Eq)]
pub struct LocUse {
    pub loc: Loc,
    pub reads: bool,
    pub checks: bool,
    pub writes: bool,
}

/// For each live position of a body the locations that it reads, checks and writes (docs/ANALYSES.md, "Locations"): as a list by position, in which a dead one
/// has none.
#[derive(Drop)]
pub struct LocTable {
    pub(crate) rows: Vec<Option<Vec<LocUse>>>,
}

impl Model for LocTable {
    ghost use Rattle.std.specs.Prelude.{List, Option};
    ghost use Rattle.flow_domain.specs.declared.loc_table.LocUse.{LocUse};
    ghost use Rattle.flow_domain.specs.LocRows.{shown};

    ghost Value = { List (Option (List LocUse)) };

    ghost view = { λ table. shown table.rows.items };
}

impl LocTable {
    /// How many positions there are, dead ones included.
    pub fn count(&self) -> usize
        ensures { result ≡ length self.now }
    {
        self.rows.len()
    }

    /// What the position of a number uses: nothing also where it is dead, or no position of the body.
    pub fn uses(&self, at: usize) -> &[LocUse]
        ensures { IsRowAt self.now at result.now }
    {
        let Some(row) = self.rows.get(at) else {
            return &[];
        };
        match row {
            Some(uses) => uses.as_slice(),
            None => &[],
        }
    }

    /// Whether a position reads a location: false also where it is dead, or no position of the body.
    pub fn reads(&self, pos: Pos, loc: Loc) -> bool
        ensures { IsTrue result ↔ ReadsIn self.now pos.0 loc }
    {
        self.uses(pos.0 as usize)
            .iter()
            .any(|one| one.reads && one.loc == loc)
    }

    /// Whether a location decides if a position traps: false also where that is dead, or no position of the body.
    pub fn checks(&self, pos: Pos, loc: Loc) -> bool
        ensures { IsTrue result ↔ ChecksIn self.now pos.0 loc }
    {
        self.uses(pos.0 as usize)
            .iter()
            .any(|one| one.checks && one.loc == loc)
    }

    /// Whether a position writes a location: false also where it is dead, or no position of the body.
    pub fn writes(&self, pos: Pos, loc: Loc) -> bool
        ensures { IsTrue result ↔ WritesIn self.now pos.0 loc }
    {
        self.uses(pos.0 as usize)
            .iter()
            .any(|one| one.writes && one.loc == loc)
    }
}
