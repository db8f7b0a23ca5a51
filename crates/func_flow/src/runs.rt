//! Runs of positions that follow one another, with nothing else that leads into them.

ghost use Rattle.std.specs.Prelude.{◌≡◌, ◌<◌, suc, true, false, None, IfOk, IfSome, MatchOption, length, slice_get};
ghost use Rattle.wasm_types.specs.Nodes.{At};
ghost use Rattle.block_cfg.specs.Graph.{number, row_of};
ghost use Rattle.single_entry.specs.Climbs.{Tops};
ghost use Rattle.single_entry.specs.Entries.{IsGraph};
ghost use Rattle.single_entry.specs.Last.{HasNoneOf, IsLastOf};
ghost use Rattle.func_flow.specs.Next.{AreMarked};
ghost use Rattle.func_flow.specs.Runs as spec;
ghost use Rattle.func_flow.specs.Steps.{whom_of};

use crate::search::is_marked;
use crate::steps::Step;
use crate::tables::Tables;
use block_cfg::point_number;
use def_use::Writers;
use single_entry::Skips;
use std::alloc::Global;
use wasm_types::{Loc, NoMemory, Node, Point, Pos};

/// By position where its run begins, the positions that write each location, and how far up a location may come from past regions.
#[derive(Drop)]
pub(crate) struct Runs {
    /// For locals, which no call writes.
    inner: Vec<u32>,
    /// For what calls may write: no run goes past a call.
    outer: Vec<u32>,
    writers: Writers,
    skips: Skips,
    /// Whether the body calls nothing.
    calm: bool,
}

/// The point that leads to a point, where just one does.
fn lone(tables: &Tables, points: &[bool], point: Point) -> Option<Point>
    requires { AreMarked tables.now.cfg.now.points tables.now.numbering.nodes points.now }
    ensures { IfSome result (λ b. spec.IsLone tables.now.cfg.now point b) }
{
    if !is_marked(points, point_number(point)) {
        return None;
    }
    let before = tables.cfg.before(point);
    if before.len() != 1 {
        return None;
    }
    Some(before[0])
}

/// Whether a run may go on past a position.
fn may_pass(steps: &[Step], pos: u32, past_calls: bool) -> bool
    ensures { result ≡ true → past_calls ≡ false → whom_of (slice_get steps.now pos) ≡ None }
{
    if past_calls {
        return true;
    }
    match steps.get(pos as usize) {
        Some(step) => step.whom.is_none(),
        None => true,
    }
}

/// The position before another, where a run goes on from it to the other.
fn previous(tables: &Tables, points: &[bool], pos: u32, past_calls: bool) -> Option<u32>
    requires { AreMarked tables.now.cfg.now.points tables.now.numbering.nodes points.now }
    ensures { IfSome result (λ q. (pos ≡ suc q) × spec.GoesOn tables.now past_calls q) }
{
    let Some(Node::At(earlier)) = lone(tables, points, Node::At(Pos(pos))) else {
        return None;
    };
    if earlier.0 >= pos || pos - earlier.0 != 1 {
        return None;
    }
    if !may_pass(tables.steps, earlier.0, past_calls) {
        return None;
    }
    Some(earlier.0)
}

/// Where the run of a position begins, by those of the positions before.
fn start_at(tables: &Tables, points: &[bool], starts: &[u32], pos: u32, past_calls: bool) -> u32
    requires marked { AreMarked tables.now.cfg.now.points tables.now.numbering.nodes points.now }
    requires length { length starts.now ≡ pos }
    requires starts { spec.AreStarts tables.now past_calls starts.now }
    ensures { spec.IsRun tables.now past_calls result pos }
{
    match previous(tables, points, pos, past_calls) {
        Some(earlier) => starts[earlier as usize],
        None => pos,
    }
}

/// By position where its run begins: runs go past calls, or end at them.
fn starts(
    alloc: Global,
    tables: &Tables,
    points: &[bool],
    past_calls: bool,
) -> Result<Vec<u32>, NoMemory>
    requires { AreMarked tables.now.cfg.now.points tables.now.numbering.nodes points.now }
    ensures { IfOk result (λ starts. spec.AreStarts tables.now past_calls starts.items) }
{
    let mut starts = Vec::new(alloc);
    for pos in 0..tables.numbering.nodes / 2 {
        let start = start_at(tables, points, &starts, pos as u32, past_calls);
        starts.push(start).map_err(|_| NoMemory)?;
    }
    Ok(starts)
}

/// Whether none of the positions calls.
fn is_calm(steps: &[Step]) -> bool
    ensures { result ≡ true → spec.IsCalm steps.now }
{
    for step in steps {
        if step.whom.is_some() {
            return false;
        }
    }
    true
}

impl Runs {
    /// Those of a body, by its tables and by which nodes are points.
    pub(crate) fn new(alloc: Global, tables: &Tables, points: &[bool]) -> Result<Runs, NoMemory>
        requires marked { AreMarked tables.now.cfg.now.points tables.now.numbering.nodes points.now }
        requires graph { IsGraph tables.now.cfg.now }
        ensures { IfOk result (λ runs. spec.AreRuns tables.now runs) }
    {
        let inner = starts(alloc, tables, points, true)?;
        let outer = starts(alloc, tables, points, false)?;
        let writers = Writers::new(alloc, tables.locs)?;
        let skips = Skips::new(alloc, tables.cfg)?;
        let calm = is_calm(tables.steps);
        Ok(Runs {
            inner,
            outer,
            writers,
            skips,
            calm,
        })
    }

    /// Whether a location may be taken up past regions at once: no call writes it.
    fn may_rise(&self, loc: Loc) -> bool
        ensures { result ≡ spec.may_rise self.now.calm loc }
    {
        match loc {
            Loc::Local(_) => true,
            _ => self.calm,
        }
    }

    /// The point furthest up that a location comes from which is needed at a point.
    pub(crate) fn top(&self, loc: Loc, point: Point) -> Point
        requires { spec.AreRising self.now }
        ensures { spec.IsTopFor self.now loc point result }
    {
        if self.may_rise(loc) {
            self.skips.climb(self.writers.of(loc), point)
        } else {
            point
        }
    }

    fn starts_for(&self, loc: Loc) -> &[u32]
        ensures { result.now ≡ spec.starts_for self.now loc }
    {
        match loc {
            Loc::Local(_) => self.inner.as_slice(),
            _ => self.outer.as_slice(),
        }
    }

    /// Where the run of a position begins, as far as a location goes.
    pub(crate) fn start(&self, loc: Loc, pos: u32) -> u32
        ensures { result ≡ spec.start_of (spec.starts_for self.now loc) pos }
    {
        match self.starts_for(loc).get(pos as usize) {
            Some(start) => *start,
            None => pos,
        }
    }

    /// The last position that writes a location, of those from `start` on that stand before a position.
    pub(crate) fn writer(&self, loc: Loc, start: u32, pos: u32) -> Option<u32>
        requires { spec.AreRising self.now }
        ensures { MatchOption result (HasNoneOf (spec.writers_in self.now loc) start pos) (λ w. IsLastOf (spec.writers_in self.now loc) start pos w) }
    {
        match self.writers.last(loc, start as usize, pos as usize) {
            Some(writer) => Some(writer as u32),
            None => None,
        }
    }
}
