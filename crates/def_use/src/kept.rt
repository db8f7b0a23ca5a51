//! Answers that are kept, to be asked again.

ghost use Rattle.std.specs.Prelude.{◌≡◌, ◌+◌, ◌↔◌, ℕ, IfOk, IfSome, IsSome, IsTrue, Some};
ghost use Rattle.std.specs.Borrow.{sem};
ghost use Rattle.std.specs.List.{Contains};
ghost use Rattle.wasm_types.specs.declared.place.Loc.{Loc};
ghost use Rattle.wasm_types.specs.Reaching.{Writes};
ghost use Rattle.flow_domain.specs.LocTables.{Rows, WritesIn};
ghost use Rattle.single_entry.specs.Entries.{IsGraph};
ghost use Rattle.def_use.specs.Answers.{IsAnswer};
ghost use Rattle.def_use.specs.Kept.{AreRight, IsKept, IsMadeFor, Keeps, Puts, Serves, answer_at};
ghost use Rattle.def_use.specs.Again.{StaysRight};
ghost use Rattle.def_use.specs.Places as spec;

use crate::places::place_of;
use crate::search::find;
use crate::tables::Tables;
use crate::writers::loc_number;
use block_cfg::Cfg;
use flow_domain::LocTable;
use indexmap::IndexMap;
use std::alloc::Global;
use wasm_types::{Def, Loc, NoMemory, Point};
use worklist::Searcher;

/// The answers that were found for the points of one body, to be asked again.
#[derive(Drop)]
pub struct Reach {
    tables: Tables,
    searcher: Searcher,
    /// By the place of the point and the number of the location.
    found: IndexMap<(usize, usize), Vec<Def>>,
}

/// Whether a point writes a location.
fn is_written(locs: &LocTable, point: Point, loc: Loc) -> bool
    ensures { IsTrue result ↔ Writes (WritesIn locs.now) loc point }
{
    match point {
        Point::At(pos) => locs.writes(pos, loc),
        Point::Join(_) | Point::Exit => false,
    }
}

impl Reach {
    /// For the points of a body. It fails only where memory is refused.
    pub fn begin(alloc: Global, cfg: &Cfg, locs: &LocTable) -> Result<Reach, NoMemory>
        requires { IsGraph cfg.now }
        ensures made { IfOk result (λ reach. IsMadeFor cfg.now reach) }
        ensures right { IfOk result (λ reach. AreRight cfg.now locs.now reach) }
    {
        let tables = Tables::new(alloc, cfg, locs)?;
        let searcher = Searcher::new(alloc, cfg.points().len() + 1)?;
        Ok(Reach {
            tables,
            searcher,
            found: IndexMap::new(alloc),
        })
    }

    /// Keeps an answer for a place.
    fn keep(&mut self, place: usize, loc: Loc, defs: Vec<Def>) -> Result<(), NoMemory>
        ensures tables { self.new.tables ≡ self.old.tables }
        ensures size { self.new.searcher ≡ self.old.searcher }
        ensures there { IfOk result (λ _. answer_at self.new place loc ≡ Some defs) }
        ensures others { Puts self.old self.new place loc defs }
    {
        self.found
            .insert((place, loc_number(loc)), defs)
            .map_err(|_| NoMemory)?;
        Ok(())
    }

    /// Finds the answer for a point and a location, and keeps it.
    fn search(
        &mut self,
        alloc: Global,
        cfg: &Cfg,
        locs: &LocTable,
        point: Point,
        loc: Loc,
    ) -> Result<(), NoMemory>
        requires graph { IsGraph cfg.now }
        requires point { Contains cfg.now.points point }
        requires made { IsMadeFor cfg.now self.old }
        requires right { AreRight cfg.now locs.now self.old }
        ensures keeps { Keeps cfg.now locs.now self.old self.new }
        ensures there { IfOk result (λ _. IsKept self.new (spec.place_of self.new.tables.places.items point) loc) }
    {
        let defs = find(
            alloc,
            &mut self.searcher,
            cfg,
            locs,
            &self.tables,
            point,
            loc,
        )?;
        let place = place_of(&self.tables.places, point);
        self.keep(place, loc, defs)
    }

    /// The point whose answer serves for this one too: where one point leads here, the one furthest up from there, if it doesn't write the location.
    fn shared(&self, cfg: &Cfg, locs: &LocTable, point: Point, loc: Loc) -> Option<Point>
        requires graph { IsGraph cfg.now }
        requires point { Contains cfg.now.points point }
        requires made { IsMadeFor cfg.now self.now }
        requires right { AreRight cfg.now locs.now self.now }
        ensures { IfSome result (λ top. Contains cfg.now.points top × Serves cfg.now locs.now loc top point) }
    {
        let before = cfg.before(point);
        if before.len() != 1 || place_of(&self.tables.places, point) == 0 {
            return None;
        }
        let top = self
            .tables
            .skips
            .climb(self.tables.writers.of(loc), before[0]);
        if is_written(locs, top, loc) {
            return None;
        }
        Some(top)
    }

    /// Keeps for a point the answer of another one, which is found first where none is kept.
    fn share(
        &mut self,
        alloc: Global,
        cfg: &Cfg,
        locs: &LocTable,
        top: Point,
        point: Point,
        loc: Loc,
    ) -> Result<(), NoMemory>
        requires graph { IsGraph cfg.now }
        requires top { Contains cfg.now.points top }
        requires point { Contains cfg.now.points point }
        requires made { IsMadeFor cfg.now self.old }
        requires right { AreRight cfg.now locs.now self.old }
        requires serves { Serves cfg.now locs.now loc top point }
        ensures keeps { Keeps cfg.now locs.now self.old self.new }
        ensures there { IfOk result (λ _. IsKept self.new (spec.place_of self.new.tables.places.items point) loc) }
    {
        if self.known(cfg, top, loc).is_none() {
            self.search(alloc, cfg, locs, top, loc)?;
        }
        let Some(defs) = self.known(cfg, top, loc) else {
            unreachable!();
        };
        let copy = defs.to_vec(alloc).map_err(|_| NoMemory)?;
        let place = place_of(&self.tables.places, point);
        self.keep(place, loc, copy)
    }

    /// The answer for a point and a location, where it is kept.
    pub fn known(&self, cfg: &Cfg, point: Point, loc: Loc) -> Option<&[Def]>
        requires made { IsMadeFor cfg.now self.now }
        requires graph { IsGraph cfg.now }
        requires point { Contains cfg.now.points point }
        ensures answer { IfSome result (λ defs. (T : Rows) → AreRight cfg.now T self.now → IsAnswer cfg.now T loc point defs.now) }
        ensures there { IsSome result ↔ IsKept self.now (spec.place_of self.now.tables.places.items point) loc }
    {
        let place = place_of(&self.tables.places, point);
        match self.found.get(&(place, loc_number(loc))) {
            Some(defs) => Some(defs.as_slice()),
            None => None,
        }
    }

    /// Finds the answer for a point and a location, where none is kept, and keeps it with the others. It fails only where memory is refused, and all that was
    /// kept is kept then.
    pub fn learn(
        &mut self,
        alloc: Global,
        cfg: &Cfg,
        locs: &LocTable,
        point: Point,
        loc: Loc,
    ) -> Result<(), NoMemory>
        requires graph { IsGraph cfg.now }
        requires point { Contains cfg.now.points point }
        requires made { IsMadeFor cfg.now self.old }
        requires right { AreRight cfg.now locs.now self.old }
        ensures made { IsMadeFor cfg.now self.new }
        ensures right { AreRight cfg.now locs.now self.new }
        ensures tables { self.new.tables ≡ self.old.tables }
        ensures kept { (k : ℕ) (x : Loc) → IsKept self.old k x → IsKept self.new k x }
        ensures there { IfOk result (λ _. IsKept self.new (spec.place_of self.new.tables.places.items point) loc) }
    {
        if self.known(cfg, point, loc).is_some() {
            return Ok(());
        }
        match self.shared(cfg, locs, point, loc) {
            Some(top) => self.share(alloc, cfg, locs, top, point, loc),
            None => self.search(alloc, cfg, locs, point, loc),
        }
    }

    /// The definitions of a location that reach a point, as `reaching` answers them. It finds them where none are kept, and keeps them. It can be
    /// asked again, also after an error.
    pub fn of(
        &mut self,
        alloc: Global,
        cfg: &Cfg,
        locs: &LocTable,
        point: Point,
        loc: Loc,
    ) -> Result<&[Def], NoMemory>
        requires graph { IsGraph cfg.now }
        requires point { Contains cfg.now.points point }
        requires made { IsMadeFor cfg.now self.old }
        requires right { AreRight cfg.now locs.now self.old }
        ensures answer { IfOk result (λ defs. IsAnswer cfg.now locs.now loc point defs.now) }
        // Once the answer is looked at no more, it can be asked again.
        ensures* again { sem 𝓛 (StaysRight self.entry cfg.now locs.now) }
    {
        self.learn(alloc, cfg, locs, point, loc)?;
        match self.known(cfg, point, loc) {
            Some(defs) => Ok(defs),
            None => unreachable!(),
        }
    }
}
