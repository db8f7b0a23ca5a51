//! The search over the items of a body.

ghost use Rattle.std.specs.Prelude.{◌≡◌, ◌+◌, ◌*◌, ◌^◌, ◌<◌, ◌≤◌, ◌↔◌, ◌⊎◌, ◌||◌, ℕ, IfOk, IsTrue, Some, None, false, length, slice_get, slice_index_or, true};
ghost use Rattle.std.specs.List.{All, Contains};
ghost use Rattle.std.specs.Option.{option_copied};
ghost use Rattle.worklist.specs.Gains.{Gains};
ghost use Rattle.worklist.specs.Packed.{PackedEdge};
ghost use Rattle.wasm_types.specs.Nodes.{At};
ghost use Rattle.block_cfg.specs.Graph.{number, row_of};
ghost use Rattle.stack_names.specs.Named.{of_node, operands_in};
ghost use Rattle.wasm_types.specs.declared.module.Pos.{Pos};
ghost use Rattle.wasm_types.specs.Reaching.{Writes};
ghost use Rattle.flow_domain.specs.LocTables.{row_in};
ghost use Rattle.func_flow.specs.declared.items.Item.{Item};
ghost use Rattle.func_flow.specs.Items.{IsItem, IsLoc, Numbered, item_number, loc_number};
ghost use Rattle.called_rows.specs.Whom.{output_of};
ghost use Rattle.func_flow.specs.Next as spec;
ghost use Rattle.func_flow.specs.RunLaws.{short_stays};
ghost use Rattle.func_flow.specs.Runs.{Arrives, IsInOrder, Lands, Raises, Settled, SettledFrom, Short, entry_at, join_only};
ghost use Rattle.func_flow.specs.Steps.{decides_of, whom_of};

use crate::items::Item;
use crate::made::{picks_for, uses_for};
use crate::runs::Runs;
use crate::steps::{Picks, Step};
use crate::tables::Tables;
use block_cfg::point_number;
use called_rows::{Made, Whom};
use flow_domain::LocUse;
use stack_names::Place;
use wasm_types::{Loc, NoMemory, Node, Point, Pos};
use worklist::Graph;

/// The graph of the items, by the tables of a body and its runs.
#[derive(Drop)]
pub(crate) struct Flow<'a> {
    pub(crate) tables: Tables<'a>,
    /// By the number of a node whether it is a point.
    pub(crate) points: &'a [bool],
    pub(crate) runs: &'a Runs,
    ghost fits: { spec.Fits tables },
    ghost nodes: { tables.numbering.nodes ≡ 2 * length tables.nest.now + 1 },
    ghost pointed: { spec.AreMarked tables.cfg.now.points tables.numbering.nodes points.now },
    ghost order: { IsInOrder runs.now },
}

/// Whether a mark stands at a number.
pub(crate) fn is_marked(marks: &[bool], index: usize) -> bool
    ensures { IsTrue result ↔ (slice_index_or marks.now index false ≡ true) }
{
    match marks.get(index) {
        Some(mark) => *mark,
        None => false,
    }
}

/// The join that alone leads to a point, and else the point itself.
fn join_of(before: &[Point], point: Point) -> Point
    ensures { result ≡ join_only true before.now point }
{
    if before.len() != 1 {
        return point;
    }
    match before[0] {
        Point::Join(block) => Point::Join(block),
        Point::At(_) | Point::Exit => point,
    }
}

impl Flow<'_> {
    fn push(&self, item: Item, next: &mut Vec<usize>) -> Result<(), NoMemory>
        requires { IsItem self.now.tables.numbering item }
        ensures { IfOk result (λ _. Gains (Numbered self.now.tables.numbering (λ j. j ≡ item)) next.old.items next.new.items) }
    {
        let number = self.tables.numbering.number(item);
        next.push(number).map_err(|_| NoMemory)?;
        Ok(())
    }

    fn push_nodes(&self, nodes: &[Node], next: &mut Vec<usize>) -> Result<(), NoMemory>
        requires { All (λ node. number node < self.now.tables.numbering.nodes) nodes.now }
        ensures { IfOk result (λ _. Gains (Numbered self.now.tables.numbering (spec.FromEach nodes.now spec.Joins)) next.old.items next.new.items) }
    {
        for node in nodes {
            self.push(Item::Value(*node), next)?;
        }
        Ok(())
    }

    /// The operand of a number, counted from the top, where it is picked.
    fn push_picked_one(
        &self,
        places: &[Place],
        picks: Picks,
        index: usize,
        next: &mut Vec<usize>,
    ) -> Result<(), NoMemory>
        requires places { All (λ place. number place.maker < self.now.tables.numbering.nodes) places.now }
        requires index { index < length places.now }
        ensures { IfOk result (λ _. Gains (Numbered self.now.tables.numbering (spec.PickedAt places.now picks index)) next.old.items next.new.items) }
    {
        if !picks.has(index) {
            return Ok(());
        }
        let place = places[places.len() - 1 - index];
        self.push(Item::Value(place.maker), next)?;
        Ok(())
    }

    /// What makes the operands that are picked.
    fn push_picked(
        &self,
        places: &[Place],
        picks: Picks,
        next: &mut Vec<usize>,
    ) -> Result<(), NoMemory>
        requires { All (λ place. number place.maker < self.now.tables.numbering.nodes) places.now }
        ensures { IfOk result (λ _. Gains (Numbered self.now.tables.numbering (spec.Picked places.now picks)) next.old.items next.new.items) }
    {
        for index in 0..places.len() {
            self.push_picked_one(places, picks, index, next)?;
        }
        Ok(())
    }

    fn push_use(
        &self,
        pos: Pos,
        made: Made,
        one: LocUse,
        next: &mut Vec<usize>,
    ) -> Result<(), NoMemory>
        requires node { number (At pos.0) < self.now.tables.numbering.nodes }
        requires loc { (one.reads || one.checks) ≡ true → IsLoc self.now.tables.numbering.globals self.now.tables.numbering.locals one.loc }
        ensures { IfOk result (λ _. Gains (Numbered self.now.tables.numbering (spec.Use pos.0 (output_of made) one)) next.old.items next.new.items) }
    {
        if uses_for(made, one) {
            self.push(Item::Needed(one.loc, Node::At(pos)), next)?;
        }
        Ok(())
    }

    /// The locations that a position reads, or by which it traps.
    fn push_uses(&self, pos: Pos, made: Made, next: &mut Vec<usize>) -> Result<(), NoMemory>
        requires { number (At pos.0) < self.now.tables.numbering.nodes }
        ensures { IfOk result (λ _. Gains (Numbered self.now.tables.numbering (spec.FromEach (row_in (slice_get self.now.tables.locs.now pos.0))
            (spec.Use pos.0 (output_of made)))) next.old.items next.new.items) }
    {
        for one in self.tables.locs.uses(pos.0 as usize) {
            self.push_use(pos, made, *one, next)?;
        }
        Ok(())
    }

    pub(crate) fn step(&self, pos: Pos) -> Option<&Step>
        ensures { option_copied result ≡ slice_get self.now.tables.steps.now pos.0 }
    {
        self.tables.steps.get(pos.0 as usize)
    }

    /// Which operands an output of a position depends on.
    fn picks(&self, pos: Pos, made: Made) -> Picks
        ensures { result ≡ spec.picks_for (output_of made) (slice_get self.now.tables.steps.now pos.0) }
    {
        match self.step(pos) {
            Some(step) => picks_for(made, *step),
            None => Picks::Nothing,
        }
    }

    /// By which operands a position decides.
    fn conditions(&self, pos: Pos) -> Picks
        ensures { result ≡ decides_of (slice_get self.now.tables.steps.now pos.0) }
    {
        match self.step(pos) {
            Some(step) => step.decides,
            None => Picks::Nothing,
        }
    }

    /// Whom a position calls.
    fn whom(&self, pos: Pos) -> Option<Whom>
        ensures { result ≡ spec.whom_at self.now.tables pos.0 }
    {
        match self.step(pos) {
            Some(step) => step.whom,
            None => None,
        }
    }

    /// An operand of a call, the deepest being 0.
    fn push_argument(
        &self,
        places: &[Place],
        made: Made,
        whom: Whom,
        index: usize,
        next: &mut Vec<usize>,
    ) -> Result<(), NoMemory>
        requires places { All (λ place. number place.maker < self.now.tables.numbering.nodes) places.now }
        requires index { index < length places.now }
        ensures { IfOk result (λ _. Gains (Numbered self.now.tables.numbering (spec.ArgumentAt self.now.tables places.now (output_of made) whom index))
            next.old.items next.new.items) }
    {
        if self.tables.called.takes(whom, made, places.len(), index) {
            let place = places[index];
            self.push(Item::Value(place.maker), next)?;
        }
        Ok(())
    }

    /// The operands of a call that the row of whom it calls has, and the index of one through the table.
    fn push_arguments(
        &self,
        places: &[Place],
        made: Made,
        whom: Whom,
        next: &mut Vec<usize>,
    ) -> Result<(), NoMemory>
        requires { All (λ place. number place.maker < self.now.tables.numbering.nodes) places.now }
        ensures { IfOk result (λ _. Gains (Numbered self.now.tables.numbering (spec.FromBelow (length places.now) (spec.ArgumentAt self.now.tables places.now
            (output_of made) whom))) next.old.items next.new.items) }
    {
        for index in 0..places.len() {
            self.push_argument(places, made, whom, index, next)?;
        }
        Ok(())
    }

    /// The location of a number at a call, where the row of whom it calls has it or it decides if the call stops.
    fn push_place(
        &self,
        pos: Pos,
        made: Made,
        whom: Whom,
        index: usize,
        next: &mut Vec<usize>,
    ) -> Result<(), NoMemory>
        requires node { number (At pos.0) < self.now.tables.numbering.nodes }
        requires index { index < self.now.tables.numbering.globals + 3 }
        ensures { IfOk result (λ _. Gains (Numbered self.now.tables.numbering (spec.PlaceAt self.now.tables pos.0 (output_of made) whom index))
            next.old.items next.new.items) }
    {
        let loc = self.tables.numbering.loc(index);
        if self.tables.called.has(whom, made, loc) || self.tables.called.checks(whom, made, loc) {
            self.push(Item::Needed(loc, Node::At(pos)), next)?;
        }
        Ok(())
    }

    /// The locations at a call that the row of whom it calls has, and those by which the call stops.
    fn push_places(
        &self,
        pos: Pos,
        made: Made,
        whom: Whom,
        next: &mut Vec<usize>,
    ) -> Result<(), NoMemory>
        requires { number (At pos.0) < self.now.tables.numbering.nodes }
        ensures { IfOk result (λ _. Gains (Numbered self.now.tables.numbering (spec.FromBelow (self.now.tables.numbering.globals + 3)
            (spec.PlaceAt self.now.tables pos.0 (output_of made) whom))) next.old.items next.new.items) }
    {
        for index in 0..self.tables.numbering.globals + 3 {
            self.push_place(pos, made, whom, index, next)?;
        }
        Ok(())
    }

    /// From what a call makes.
    fn push_call(
        &self,
        pos: Pos,
        made: Made,
        whom: Whom,
        next: &mut Vec<usize>,
    ) -> Result<(), NoMemory>
        requires { number (At pos.0) < self.now.tables.numbering.nodes }
        ensures { IfOk result (λ _. Gains (Numbered self.now.tables.numbering (spec.ByStep self.now.tables pos.0 (output_of made)
            (slice_get self.now.tables.steps.now pos.0) (Some whom))) next.old.items next.new.items) }
    {
        self.push_arguments(self.tables.names.operands(pos), made, whom, next)?;
        self.push_places(pos, made, whom, next)?;
        Ok(())
    }

    /// From what a position makes that calls nothing.
    fn push_plain(&self, pos: Pos, made: Made, next: &mut Vec<usize>) -> Result<(), NoMemory>
        requires { number (At pos.0) < self.now.tables.numbering.nodes }
        ensures { IfOk result (λ _. Gains (Numbered self.now.tables.numbering (spec.ByStep self.now.tables pos.0 (output_of made)
            (slice_get self.now.tables.steps.now pos.0) None)) next.old.items next.new.items) }
    {
        let picks = self.picks(pos, made);
        self.push_picked(self.tables.names.operands(pos), picks, next)?;
        self.push_uses(pos, made, next)?;
        Ok(())
    }

    /// From what a position makes.
    fn push_at(&self, pos: Pos, made: Made, next: &mut Vec<usize>) -> Result<(), NoMemory>
        requires { number (At pos.0) < self.now.tables.numbering.nodes }
        ensures { IfOk result (λ _. Gains (Numbered self.now.tables.numbering (spec.AtNode self.now.tables (output_of made) (Node.At pos)))
            next.old.items next.new.items) }
    {
        match self.whom(pos) {
            Some(whom) => {
                self.push_call(pos, made, whom, next)?;
                Ok(())
            }
            None => {
                self.push_plain(pos, made, next)?;
                Ok(())
            }
        }
    }

    fn push_near(&self, node: Node, made: Made, next: &mut Vec<usize>) -> Result<(), NoMemory>
        requires { number node < self.now.tables.numbering.nodes }
        ensures { IfOk result (λ _. Gains (Numbered self.now.tables.numbering (spec.AtNode self.now.tables (output_of made) node))
            next.old.items next.new.items) }
    {
        match node {
            Node::At(pos) => {
                self.push_at(pos, made, next)?;
                Ok(())
            }
            Node::Join(_) | Node::Exit => Ok(()),
        }
    }

    /// From what a node makes.
    fn push_made(&self, node: Node, made: Made, next: &mut Vec<usize>) -> Result<(), NoMemory>
        requires { number node < self.now.tables.numbering.nodes }
        ensures { IfOk result (λ _. Gains (Numbered self.now.tables.numbering (spec.Makes self.now.tables (output_of made) node))
            next.old.items next.new.items) }
    {
        self.push_near(node, made, next)?;
        self.push(Item::Decided(node), next)?;
        Ok(())
    }

    /// From the value that a node makes.
    fn push_value(&self, node: Node, next: &mut Vec<usize>) -> Result<(), NoMemory>
        requires { number node < self.now.tables.numbering.nodes }
        ensures { IfOk result (λ _. Gains (Numbered self.now.tables.numbering (spec.Next self.now.tables (Item.Value node))) next.old.items next.new.items) }
    {
        self.push_made(node, Made::Ret, next)?;
        self.push_nodes(self.tables.names.joined(node), next)?;
        Ok(())
    }

    /// The operands of a decider.
    fn push_condition(&self, node: Node, next: &mut Vec<usize>) -> Result<(), NoMemory>
        ensures { IfOk result (λ _. Gains (Numbered self.now.tables.numbering (spec.Condition self.now.tables node)) next.old.items next.new.items) }
    {
        match node {
            Node::At(pos) => {
                let picks = self.conditions(pos);
                self.push_picked(self.tables.names.operands(pos), picks, next)?;
                Ok(())
            }
            Node::Join(_) | Node::Exit => Ok(()),
        }
    }

    /// From a decider.
    fn push_decider(&self, node: Node, next: &mut Vec<usize>) -> Result<(), NoMemory>
        requires { number node < self.now.tables.numbering.nodes }
        ensures { IfOk result (λ _. Gains (Numbered self.now.tables.numbering (spec.Next self.now.tables (Item.Decider node))) next.old.items next.new.items) }
    {
        self.push_condition(node, next)?;
        self.push(Item::Decided(node), next)?;
        Ok(())
    }

    /// What holds nodes: an if decides about them, and another has what decides about it.
    fn holder(&self, block: Pos) -> Item
        ensures { result ≡ spec.holder_at self.now.tables block }
    {
        let arms = match self.step(block) {
            Some(step) => step.arms,
            None => false,
        };
        if arms {
            Item::Decider(Node::At(block))
        } else {
            Item::Decided(Node::At(block))
        }
    }

    /// What is directly around a position.
    fn push_holder(&self, pos: Pos, next: &mut Vec<usize>) -> Result<(), NoMemory>
        requires { number (At pos.0) < self.now.tables.numbering.nodes }
        ensures { IfOk result (λ _. Gains (Numbered self.now.tables.numbering (spec.Outward self.now.tables (Node.At pos))) next.old.items next.new.items) }
    {
        match self.tables.nest.around(pos) {
            Some(block) => {
                self.push(self.holder(block), next)?;
                Ok(())
            }
            None => Ok(()),
        }
    }

    /// What is around a node, or has it as its end.
    fn push_outward(&self, node: Node, next: &mut Vec<usize>) -> Result<(), NoMemory>
        requires { number node < self.now.tables.numbering.nodes }
        ensures { IfOk result (λ _. Gains (Numbered self.now.tables.numbering (spec.Outward self.now.tables node)) next.old.items next.new.items) }
    {
        match node {
            Node::At(pos) => {
                self.push_holder(pos, next)?;
                Ok(())
            }
            Node::Join(block) => {
                self.push(self.holder(block), next)?;
                Ok(())
            }
            Node::Exit => Ok(()),
        }
    }

    fn push_nearest(&self, decider: Option<Pos>, next: &mut Vec<usize>) -> Result<(), NoMemory>
        requires { (p : Pos) → decider ≡ Some p → number (At p.0) < self.now.tables.numbering.nodes }
        ensures { IfOk result (λ _. Gains (Numbered self.now.tables.numbering (spec.DeciderOf decider)) next.old.items next.new.items) }
    {
        match decider {
            Some(pos) => {
                self.push(Item::Decider(Node::At(pos)), next)?;
                Ok(())
            }
            None => Ok(()),
        }
    }

    /// From a node, what decides whether it runs.
    fn push_decided(&self, node: Node, next: &mut Vec<usize>) -> Result<(), NoMemory>
        requires { number node < self.now.tables.numbering.nodes }
        ensures { IfOk result (λ _. Gains (Numbered self.now.tables.numbering (spec.NextDecided self.now.tables node)) next.old.items next.new.items) }
    {
        let nearest = self.tables.deciders.nearest(node);
        self.push_nearest(nearest.earlier, next)?;
        self.push_nearest(nearest.latest, next)?;
        self.push_outward(node, next)?;
        Ok(())
    }

    fn writes_at(&self, pos: Pos, loc: Loc) -> bool
        requires { IsLoc self.now.tables.numbering.globals self.now.tables.numbering.locals loc }
        ensures { IsTrue result ↔ spec.WrittenAt self.now.tables pos.0 loc }
    {
        match self.whom(pos) {
            Some(whom) => self.tables.called.writes(whom, loc),
            None => self.tables.locs.writes(pos, loc),
        }
    }

    /// Whether a point writes a location.
    fn writes(&self, point: Point, loc: Loc) -> bool
        requires { IsLoc self.now.tables.numbering.globals self.now.tables.numbering.locals loc }
        ensures { IsTrue result ↔ Writes (spec.WrittenAt self.now.tables) loc point }
    {
        match point {
            Point::At(pos) => self.writes_at(pos, loc),
            Point::Join(_) => false,
            Point::Exit => false,
        }
    }

    /// Where a run comes from that begins at a position.
    fn entry(&self, start: u32) -> Point
        requires { number (At start) < self.now.tables.numbering.nodes }
        ensures { result ≡ entry_at self.now.tables.cfg.now start }
    {
        let point = Node::At(Pos(start));
        if start == 0 || !self.points[point_number(point)] {
            return point;
        }
        join_of(self.tables.cfg.before(point), point)
    }

    /// Where a location comes from that is needed at a position whose run begins at another.
    fn settled_from(&self, loc: Loc, start: u32, pos: Pos) -> Item
        requires start { start ≤ pos.0 }
        requires node { number (At pos.0) < self.now.tables.numbering.nodes }
        requires loc { IsLoc self.now.tables.numbering.globals self.now.tables.numbering.locals loc }
        ensures { SettledFrom self.now.tables self.now.runs.now loc start pos.0 result }
    {
        match self.runs.writer(loc, start, pos.0) {
            Some(writer) => Item::Written(loc, Node::At(Pos(writer))),
            None => Item::Needed(loc, self.entry(start)),
        }
    }

    /// Where a location comes from that is needed at a point.
    fn settled(&self, loc: Loc, point: Point) -> Item
        requires node { number point < self.now.tables.numbering.nodes }
        requires loc { IsLoc self.now.tables.numbering.globals self.now.tables.numbering.locals loc }
        ensures { Settled self.now.tables self.now.runs.now loc point result }
    {
        match point {
            Point::At(pos) => self.settled_from(loc, self.runs.start(loc, pos.0), pos),
            Point::Join(_) | Point::Exit => Item::Needed(loc, point),
        }
    }

    /// On to a point before one at which a location is needed.
    fn passed(&self, loc: Loc, point: Point) -> Item
        requires node { number point < self.now.tables.numbering.nodes }
        requires loc { IsLoc self.now.tables.numbering.globals self.now.tables.numbering.locals loc }
        ensures exact { (j : Item) → Lands self.now.tables self.now.runs.now loc point j ↔ (j ≡ result) }
        ensures item { IsItem self.now.tables.numbering result }
    {
        if self.writes(point, loc) {
            Item::Written(loc, point)
        } else {
            self.settled(loc, point)
        }
    }

    /// A location where it is needed furthest up; another item is left as it is.
    fn raised(&self, item: Item) -> Item
        requires { IsItem self.now.tables.numbering item }
        ensures exact { (j : Item) → Raises self.now.runs.now item j ↔ (j ≡ result) }
        ensures item { IsItem self.now.tables.numbering result }
    {
        match item {
            Item::Needed(loc, point) => Item::Needed(loc, self.runs.top(loc, point)),
            _ => item,
        }
    }

    fn push_earlier(&self, loc: Loc, point: Point, next: &mut Vec<usize>) -> Result<(), NoMemory>
        requires node { number point < self.now.tables.numbering.nodes }
        requires loc { IsLoc self.now.tables.numbering.globals self.now.tables.numbering.locals loc }
        ensures { IfOk result (λ _. Gains (Numbered self.now.tables.numbering (Arrives self.now.tables self.now.runs.now loc point))
            next.old.items next.new.items) }
    {
        let passed = self.passed(loc, point);
        let item = self.raised(passed);
        self.push(item, next)?;
        Ok(())
    }

    /// From a location that is needed at a point.
    fn push_before(&self, loc: Loc, point: Point, next: &mut Vec<usize>) -> Result<(), NoMemory>
        requires node { number point < self.now.tables.numbering.nodes }
        requires loc { IsLoc self.now.tables.numbering.globals self.now.tables.numbering.locals loc }
        ensures { IfOk result (λ _. Gains (Numbered self.now.tables.numbering (Short self.now.tables self.now.runs.now (Item.Needed loc point)))
            next.old.items next.new.items) }
    {
        if !self.points[point_number(point)] {
            return Ok(());
        }
        for earlier in self.tables.cfg.before(point) {
            self.push_earlier(loc, *earlier, next)?;
        }
        Ok(())
    }

    fn push_from(&self, item: Item, next: &mut Vec<usize>) -> Result<(), NoMemory>
        requires { IsItem self.now.tables.numbering item }
        ensures { IfOk result (λ _. Gains (Numbered self.now.tables.numbering (Short self.now.tables self.now.runs.now item)) next.old.items next.new.items) }
    {
        match item {
            Item::Value(node) => {
                self.push_value(node, next)?;
                Ok(())
            }
            Item::Completion(node) => {
                self.push_made(node, Made::Done, next)?;
                Ok(())
            }
            Item::Written(loc, node) => {
                self.push_made(node, Made::Final(loc), next)?;
                Ok(())
            }
            Item::Decider(node) => {
                self.push_decider(node, next)?;
                Ok(())
            }
            Item::Decided(node) => {
                self.push_decided(node, next)?;
                Ok(())
            }
            Item::Needed(loc, point) => {
                self.push_before(loc, point, next)?;
                Ok(())
            }
        }
    }
}

impl Graph for Flow<'_> {
    ghost node_count = { λ flow. (2 * (flow.tables.numbering.globals + flow.tables.numbering.locals) + 10) * flow.tables.numbering.nodes };

    ghost leads = { λ flow. PackedEdge (IsItem flow.tables.numbering) (item_number flow.tables.numbering) (Short flow.tables flow.runs.now) };

    fn node_count(&self) -> usize {
        self.tables.numbering.count()
    }

    fn push_next(&self, node: usize, next: &mut Vec<usize>) -> Result<(), NoMemory> {
        let item = self.tables.numbering.item(node);
        self.push_from(item, next)?;
        Ok(())
    }

    ghost stays = { λ flow x y lt e. short_stays flow.tables flow.runs.now flow.fits flow.order x y e };
}
