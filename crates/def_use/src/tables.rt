//! What searches over the points of a body use.

ghost use Rattle.std.specs.Prelude.{IfOk};
ghost use Rattle.single_entry.specs.Entries.{IsGraph};
ghost use Rattle.def_use.specs.Tables.{AreTables};

use crate::places::places_of;
use crate::writers::Writers;
use block_cfg::Cfg;
use flow_domain::LocTable;
use single_entry::Skips;
use std::alloc::Global;
use wasm_types::NoMemory;

/// The places of points by their numbers, the entries of regions, and the positions that write each location.
#[derive(Drop)]
pub(crate) struct Tables {
    pub(crate) places: Vec<usize>,
    pub(crate) skips: Skips,
    pub(crate) writers: Writers,
}

impl Tables {
    /// Those of a body. It fails only where memory is refused.
    pub(crate) fn new(alloc: Global, cfg: &Cfg, locs: &LocTable) -> Result<Tables, NoMemory>
        requires { IsGraph cfg.now }
        ensures { IfOk result (λ tables. AreTables cfg.now locs.now tables) }
    {
        let places = places_of(alloc, cfg)?;
        let skips = Skips::new(alloc, cfg)?;
        let writers = Writers::new(alloc, locs)?;
        Ok(Tables {
            places,
            skips,
            writers,
        })
    }
}
