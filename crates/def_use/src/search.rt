//! One search for the definitions that reach a point.

ghost use Rattle.std.specs.Prelude.{◌≡◌, ◌+◌, IfOk, length};
ghost use Rattle.std.specs.List.{Contains};
ghost use Rattle.single_entry.specs.Entries.{IsGraph};
ghost use Rattle.def_use.specs.Answers.{IsAnswer};
ghost use Rattle.def_use.specs.Tables.{AreTables};

use crate::back::Back;
use crate::defs::{definitions, in_order};
use crate::places::place_of;
use crate::tables::Tables;
use block_cfg::Cfg;
use flow_domain::LocTable;
use std::alloc::Global;
use wasm_types::{Def, Loc, NoMemory, Point};
use worklist::Searcher;

/// What a search backwards from a point finds.
pub(crate) fn find(
    alloc: Global,
    searcher: &mut Searcher,
    cfg: &Cfg,
    locs: &LocTable,
    tables: &Tables,
    point: Point,
    loc: Loc,
) -> Result<Vec<Def>, NoMemory>
    requires graph { IsGraph cfg.now }
    requires tables { AreTables cfg.now locs.now tables.now }
    requires size { searcher.old ≡ length cfg.now.points + 1 }
    requires point { Contains cfg.now.points point }
    ensures size { searcher.new ≡ searcher.old }
    ensures answer { IfOk result (λ defs. IsAnswer cfg.now locs.now loc point defs.items) }
{
    let back = Back {
        cfg,
        locs,
        places: &tables.places,
        skips: &tables.skips,
        writers: tables.writers.of(loc),
        loc,
    };
    let mut roots = Vec::new(alloc);
    back.push_steps(place_of(&tables.places, point), &mut roots)?;
    let met = searcher.reach(alloc, &back, &roots)?;
    let entry = met.contains(&cfg.points().len());
    let positions = in_order(alloc, &back, &met)?;
    let defs = definitions(alloc, entry, &positions)?;
    Ok(defs)
}

/// The definitions of a location that reach a point (docs/ANALYSES.md, "Reaching"): the entry first, then positions in order, each once. A position writes what
/// its row in the table says. It fails only where memory is refused.
pub fn reaching(
    alloc: Global,
    cfg: &Cfg,
    locs: &LocTable,
    point: Point,
    loc: Loc,
) -> Result<Vec<Def>, NoMemory>
    requires graph { IsGraph cfg.now }
    requires point { Contains cfg.now.points point }
    ensures { IfOk result (λ defs. IsAnswer cfg.now locs.now loc point defs.items) }
{
    let tables = Tables::new(alloc, cfg, locs)?;
    let mut searcher = Searcher::new(alloc, cfg.points().len() + 1)?;
    let defs = find(alloc, &mut searcher, cfg, locs, &tables, point, loc)?;
    Ok(defs)
}
