//! The search backwards over the points of a body, for one location.

ghost use Rattle.std.specs.Prelude.{◌≡◌, ℕ, ◌+◌, ◌<◌, ◌≤◌, IfOk, MatchOption, length};
ghost use Rattle.std.specs.List.{AllPairs};
ghost use Rattle.worklist.specs.Gains.{Gains};
ghost use Rattle.def_use.specs.Places as spec;
ghost use Rattle.def_use.specs.PlacesLaws.{back_stays};

use crate::places::place_of;
use block_cfg::Cfg;
use flow_domain::LocTable;
use single_entry::Skips;
use wasm_types::{Loc, NoMemory, Point};
use worklist::Graph;

/// The points that are met backwards: what leads to a point, each as far up as nothing there writes the location, and on before each that doesn't write it. The
/// entry stands behind all places.
#[derive(Drop)]
pub(crate) struct Back<'a> {
    pub(crate) cfg: &'a Cfg,
    pub(crate) locs: &'a LocTable,
    pub(crate) places: &'a [usize],
    pub(crate) skips: &'a Skips,
    /// The positions that write the location.
    pub(crate) writers: &'a [usize],
    pub(crate) loc: Loc,
    ghost placed: { spec.AllPlaced cfg.now places.now },
    ghost tops: { spec.TopsPlaced cfg.now skips.now places.now writers.now },
    ghost rising: { AllPairs (λ a b. a ≤ b) writers.now },
}

impl Back<'_> {
    /// The position at a place, where it writes the location.
    pub(crate) fn writer(&self, place: usize) -> Option<u32>
        ensures { MatchOption result ((p : ℕ) → spec.IsWriter self.now.cfg.now self.now.locs.now self.now.loc place p → ⊥) (λ p. spec.IsWriter self.now.cfg.now self.now.locs.now self.now.loc place p) }
    {
        match self.cfg.points().get(place) {
            Some(Point::At(pos)) if self.locs.writes(*pos, self.loc) => Some(pos.0),
            _ => None,
        }
    }

    fn push_entry(&self, place: usize, next: &mut Vec<usize>) -> Result<(), NoMemory>
        ensures { IfOk result (λ _. Gains (spec.IsEntry self.now.cfg.now place) next.old.items next.new.items) }
    {
        if place == 0 {
            next.push(self.cfg.points().len()).map_err(|_| NoMemory)?;
        }
        Ok(())
    }

    fn push_earlier(&self, place: usize, next: &mut Vec<usize>) -> Result<(), NoMemory>
        requires { place < length self.now.cfg.now.points }
        ensures { IfOk result (λ _. Gains (spec.IsEarlier self.now.cfg.now self.now.skips.now self.now.places.now self.now.writers.now place) next.old.items next.new.items) }
    {
        let point = self.cfg.points()[place];
        for earlier in self.cfg.before(point) {
            let top = self.skips.climb(self.writers, *earlier);
            let top_place = place_of(self.places, top);
            next.push(top_place).map_err(|_| NoMemory)?;
        }
        Ok(())
    }

    /// Puts the places from which the search goes on before the point at a place at the end of `next`.
    pub(crate) fn push_steps(&self, place: usize, next: &mut Vec<usize>) -> Result<(), NoMemory>
        requires { place < length self.now.cfg.now.points }
        ensures { IfOk result (λ _. Gains (spec.Steps self.now.cfg.now self.now.skips.now self.now.places.now self.now.writers.now place) next.old.items next.new.items) }
    {
        self.push_entry(place, next)?;
        self.push_earlier(place, next)?;
        Ok(())
    }
}

impl Graph for Back<'_> {
    ghost node_count = { λ back. length back.cfg.now.points + 1 };

    ghost leads = { λ back. spec.GoesBack back.cfg.now back.locs.now back.skips.now back.places.now back.writers.now back.loc };

    fn node_count(&self) -> usize {
        self.cfg.points().len() + 1
    }

    fn push_next(&self, node: usize, next: &mut Vec<usize>) -> Result<(), NoMemory> {
        if node >= self.cfg.points().len() {
            return Ok(());
        }
        match self.writer(node) {
            Some(_) => Ok(()),
            None => {
                self.push_steps(node, next)?;
                Ok(())
            }
        }
    }

    ghost stays = { λ back x y lt e. back_stays back.cfg.now back.locs.now back.skips.now back.places.now back.writers.now back.loc back.placed back.tops x y e };
}
