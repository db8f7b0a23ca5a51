//! The search for a kept set.

ghost use Rattle.std.specs.Prelude.{◌≡◌, ◌+◌, ◌*◌, ◌<◌, ◌≤◌, ◌↔◌, ◌⊎◌, ℕ, IfOk, IsTrue, None, Some, length};
ghost use Rattle.std.specs.List.{All, Contains};
ghost use Rattle.worklist.specs.Gains.{Gains};
ghost use Rattle.worklist.specs.Packed.{PackedEdge};
ghost use Rattle.wasm_types.specs.Nodes.{At};
ghost use Rattle.block_cfg.specs.Graph.{number};
ghost use Rattle.stack_names.specs.Named.{of_node, operands_in};
ghost use Rattle.wasm_types.specs.declared.module.Pos.{Pos};
ghost use Rattle.wasm_types.specs.Reaching.{Writes};
ghost use Rattle.wasm_types.specs.declared.place.Node.{Node};
ghost use Rattle.wasm_types.specs.declared.place.Loc.TheVariants.{Mem, Size};
ghost use Rattle.flow_domain.specs.Rows.{Done, Final, Ret};
ghost use Rattle.called_rows.specs.Called.{globals_in};
ghost use Rattle.called_rows.specs.Whom.{output_of};
ghost use Rattle.slice_closure.specs.Flow.{touch_at, ways_to};
ghost use Rattle.slice_closure.specs.declared.items.Item.{Item};
ghost use Rattle.slice_closure.specs.Items.{IsItem, Numbered, item_number, loc_number};
ghost use Rattle.slice_closure.specs.Next as spec;
ghost use Rattle.slice_closure.specs.Runs as runs;
ghost use Rattle.slice_closure.specs.NextLaws.{short_stays};

use crate::items::{Item, Numbering};
use crate::spot::{Came, Taken, Touch};
use crate::tables::Tables;
use called_rows::{Made, Whom};
use stack_names::Place;
use wasm_types::{Loc, NoMemory, Node, Point, Pos};
use worklist::Graph;

/// The graph of the items, by the tables of a body.
#[derive(Drop)]
pub(crate) struct Closing<'a> {
    pub(crate) tables: Tables<'a>,
    pub(crate) numbering: Numbering,
    ghost fits: { spec.Fits numbering.nodes numbering.locs tables },
    ghost nodes: { numbering.nodes ≡ 2 * length tables.nest.now + 1 },
}

impl Closing<'_> {
    pub(crate) fn push(&self, item: Item, next: &mut Vec<usize>) -> Result<(), NoMemory>
        requires { IsItem self.now.numbering.nodes self.now.numbering.locs item }
        ensures { IfOk result (λ _. Gains (Numbered self.now.numbering.nodes (λ j. j ≡ item)) next.old.items next.new.items) }
    {
        let number = self.numbering.number(item);
        next.push(number).map_err(|_| NoMemory)?;
        Ok(())
    }

    /// Whom a node calls.
    fn whom(&self, node: Node) -> Option<Whom>
        ensures { result ≡ spec.whom_in self.now.tables node }
    {
        match node {
            Node::At(pos) => self.tables.flow.touch(pos).whom(),
            Node::Join(_) => None,
            Node::Exit => None,
        }
    }

    /// That the value of a node is needed.
    fn value(&self, node: Node) -> Item
        requires { number node < self.now.numbering.nodes }
        ensures value { result ≡ spec.value_item self.now.tables node }
        ensures item { IsItem self.now.numbering.nodes self.now.numbering.locs result }
    {
        match self.whom(node) {
            Some(_) => Item::Value(node),
            None => Item::Keeps(node),
        }
    }

    pub(crate) fn push_value(&self, node: Node, next: &mut Vec<usize>) -> Result<(), NoMemory>
        requires { number node < self.now.numbering.nodes }
        ensures { IfOk result (λ _. Gains (Numbered self.now.numbering.nodes (λ j. j ≡ spec.value_item self.now.tables node)) next.old.items next.new.items) }
    {
        let item = self.value(node);
        self.push(item, next)?;
        Ok(())
    }

    /// What makes the values in these places.
    pub(crate) fn push_makers(
        &self,
        places: &[Place],
        next: &mut Vec<usize>,
    ) -> Result<(), NoMemory>
        requires { All (λ place. number place.maker < self.now.numbering.nodes) places.now }
        ensures { IfOk result (λ _. Gains (Numbered self.now.numbering.nodes (spec.FromEach places.now (spec.Maker self.now.tables))) next.old.items next.new.items) }
    {
        for place in places {
            self.push_value(place.maker, next)?;
        }
        Ok(())
    }

    fn push_nodes(&self, nodes: &[Node], next: &mut Vec<usize>) -> Result<(), NoMemory>
        requires { All (λ node. number node < self.now.numbering.nodes) nodes.now }
        ensures { IfOk result (λ _. Gains (Numbered self.now.numbering.nodes (spec.FromEach nodes.now (spec.Joins self.now.tables))) next.old.items next.new.items) }
    {
        for node in nodes {
            self.push_value(*node, next)?;
        }
        Ok(())
    }

    /// What a position reads and checks.
    fn push_uses(&self, pos: Pos, next: &mut Vec<usize>) -> Result<(), NoMemory>
        requires { number (At pos.0) < self.now.numbering.nodes }
        ensures { IfOk result (λ _. Gains (Numbered self.now.numbering.nodes (spec.Asks (touch_at (spec.spot_in self.now.tables pos.0)) pos.0)) next.old.items next.new.items) }
    {
        let point = Node::At(pos);
        match self.tables.flow.touch(pos) {
            Touch::Nothing => Ok(()),
            Touch::Writes(_) => Ok(()),
            Touch::Reads(loc) => {
                self.push(Item::Needs(loc, point), next)?;
                Ok(())
            }
            Touch::Changes(loc) => {
                self.push(Item::Needs(loc, point), next)?;
                Ok(())
            }
            Touch::Loads => {
                self.push_memory(point, next)?;
                Ok(())
            }
            Touch::Stores => {
                self.push_memory(point, next)?;
                Ok(())
            }
            Touch::Calls(_) => Ok(()),
        }
    }

    /// The memory and its size.
    fn push_memory(&self, point: Point, next: &mut Vec<usize>) -> Result<(), NoMemory>
        requires node { number point < self.now.numbering.nodes }
        requires locs { 2 ≤ self.now.numbering.locs }
        ensures { IfOk result (λ _. Gains (Numbered self.now.numbering.nodes (λ j. (j ≡ Item.Needs Mem point) ⊎ (j ≡ Item.Needs Size point))) next.old.items next.new.items) }
    {
        self.push(Item::Needs(Loc::Mem, point), next)?;
        self.push(Item::Needs(Loc::Size, point), next)?;
        Ok(())
    }

    /// The places of the operands that a position takes.
    fn taken_places(&self, pos: Pos) -> &[Place]
        ensures { result.now ≡ spec.taken_places self.now.tables pos.0 }
    {
        let places = self.tables.names.operands(pos);
        match self.tables.flow.taken(pos) {
            Some(Taken::All) => places,
            Some(Taken::Test) => places,
            Some(Taken::Last) => &places[places.len().saturating_sub(1)..],
            _ => &[],
        }
    }

    /// What makes the operands that a position takes.
    fn push_operands(&self, pos: Pos, next: &mut Vec<usize>) -> Result<(), NoMemory>
        ensures { IfOk result (λ _. Gains (Numbered self.now.numbering.nodes (spec.FromEach (spec.taken_places self.now.tables pos.0) (spec.Maker self.now.tables))) next.old.items next.new.items) }
    {
        self.push_makers(self.taken_places(pos), next)?;
        Ok(())
    }

    /// An operand of a call, the deepest being 0, where an output of the call depends on it.
    fn push_argument(
        &self,
        places: &[Place],
        made: Made,
        whom: Whom,
        index: usize,
        next: &mut Vec<usize>,
    ) -> Result<(), NoMemory>
        requires places { All (λ place. number place.maker < self.now.numbering.nodes) places.now }
        requires index { index < length places.now }
        ensures { IfOk result (λ _. Gains (Numbered self.now.numbering.nodes (spec.ArgumentAt self.now.tables places.now (output_of made) whom index))
            next.old.items next.new.items) }
    {
        if self.tables.called.takes(whom, made, places.len(), index) {
            let place = places[index];
            self.push_value(place.maker, next)?;
        }
        Ok(())
    }

    fn push_arguments(
        &self,
        places: &[Place],
        made: Made,
        whom: Whom,
        next: &mut Vec<usize>,
    ) -> Result<(), NoMemory>
        requires { All (λ place. number place.maker < self.now.numbering.nodes) places.now }
        ensures { IfOk result (λ _. Gains (Numbered self.now.numbering.nodes (spec.FromBelow (length places.now) (spec.ArgumentAt self.now.tables places.now
            (output_of made) whom))) next.old.items next.new.items) }
    {
        for index in 0..places.len() {
            self.push_argument(places, made, whom, index, next)?;
        }
        Ok(())
    }

    /// The location of a number at a call, where an output of the call depends on it.
    fn push_input(
        &self,
        pos: Pos,
        made: Made,
        whom: Whom,
        index: usize,
        next: &mut Vec<usize>,
    ) -> Result<(), NoMemory>
        requires node { number (At pos.0) < self.now.numbering.nodes }
        requires index { index < globals_in self.now.tables.called + 3 }
        ensures { IfOk result (λ _. Gains (Numbered self.now.numbering.nodes (spec.InputAt self.now.tables pos.0 (output_of made) whom index))
            next.old.items next.new.items) }
    {
        let loc = self.tables.called.loc(index);
        if self.tables.called.has(whom, made, loc) {
            self.push(Item::Needs(loc, Node::At(pos)), next)?;
        }
        Ok(())
    }

    fn push_inputs(
        &self,
        pos: Pos,
        made: Made,
        whom: Whom,
        next: &mut Vec<usize>,
    ) -> Result<(), NoMemory>
        requires { number (At pos.0) < self.now.numbering.nodes }
        ensures { IfOk result (λ _. Gains (Numbered self.now.numbering.nodes (spec.FromBelow (globals_in self.now.tables.called + 3)
            (spec.InputAt self.now.tables pos.0 (output_of made) whom))) next.old.items next.new.items) }
    {
        for index in 0..self.tables.called.globals() as usize + 3 {
            self.push_input(pos, made, whom, index, next)?;
        }
        Ok(())
    }

    /// What an output of a call depends on.
    fn push_row(
        &self,
        pos: Pos,
        made: Made,
        whom: Whom,
        next: &mut Vec<usize>,
    ) -> Result<(), NoMemory>
        requires { number (At pos.0) < self.now.numbering.nodes }
        ensures { IfOk result (λ _. Gains (Numbered self.now.numbering.nodes (spec.ByRow self.now.tables pos.0 (output_of made) whom))
            next.old.items next.new.items) }
    {
        self.push_arguments(self.tables.names.operands(pos), made, whom, next)?;
        self.push_inputs(pos, made, whom, next)?;
        Ok(())
    }

    /// What an output of a position depends on, where it is a call.
    fn push_output_at(&self, pos: Pos, made: Made, next: &mut Vec<usize>) -> Result<(), NoMemory>
        requires { number (At pos.0) < self.now.numbering.nodes }
        ensures { IfOk result (λ _. Gains (Numbered self.now.numbering.nodes (spec.ForOutput self.now.tables (output_of made) (Node.At pos)
            (spec.whom_in self.now.tables (Node.At pos)))) next.old.items next.new.items) }
    {
        match self.whom(Node::At(pos)) {
            Some(whom) => {
                self.push_row(pos, made, whom, next)?;
                Ok(())
            }
            None => Ok(()),
        }
    }

    fn push_output(&self, node: Node, made: Made, next: &mut Vec<usize>) -> Result<(), NoMemory>
        requires { number node < self.now.numbering.nodes }
        ensures { IfOk result (λ _. Gains (Numbered self.now.numbering.nodes (spec.ForOutput self.now.tables (output_of made) node
            (spec.whom_in self.now.tables node))) next.old.items next.new.items) }
    {
        match node {
            Node::At(pos) => {
                self.push_output_at(pos, made, next)?;
                Ok(())
            }
            Node::Join(_) => Ok(()),
            Node::Exit => Ok(()),
        }
    }

    /// What is directly around a position.
    fn push_holder(&self, pos: Pos, next: &mut Vec<usize>) -> Result<(), NoMemory>
        requires { number (At pos.0) < self.now.numbering.nodes }
        ensures { IfOk result (λ _. Gains (Numbered self.now.numbering.nodes (spec.Holder self.now.tables pos.0)) next.old.items next.new.items) }
    {
        match self.tables.nest.around(pos) {
            Some(block) => {
                self.push(Item::Keeps(Node::At(block)), next)?;
                Ok(())
            }
            None => Ok(()),
        }
    }

    /// What a kept position that calls nothing depends on.
    fn push_plain(&self, pos: Pos, next: &mut Vec<usize>) -> Result<(), NoMemory>
        requires { number (At pos.0) < self.now.numbering.nodes }
        ensures { IfOk result (λ _. Gains (Numbered self.now.numbering.nodes (spec.Uses self.now.tables pos.0 None)) next.old.items next.new.items) }
    {
        self.push_operands(pos, next)?;
        self.push_uses(pos, next)?;
        Ok(())
    }

    /// What a kept position depends on: a call by the row for its completion.
    fn push_needs(&self, pos: Pos, next: &mut Vec<usize>) -> Result<(), NoMemory>
        requires { number (At pos.0) < self.now.numbering.nodes }
        ensures { IfOk result (λ _. Gains (Numbered self.now.numbering.nodes (spec.Uses self.now.tables pos.0 (spec.whom_in self.now.tables (Node.At pos))))
            next.old.items next.new.items) }
    {
        match self.whom(Node::At(pos)) {
            Some(whom) => {
                self.push_row(pos, Made::Done, whom, next)?;
                Ok(())
            }
            None => {
                self.push_plain(pos, next)?;
                Ok(())
            }
        }
    }

    fn push_at(&self, pos: Pos, next: &mut Vec<usize>) -> Result<(), NoMemory>
        requires { number (At pos.0) < self.now.numbering.nodes }
        ensures { IfOk result (λ _. Gains (Numbered self.now.numbering.nodes (spec.NextAt self.now.tables (Node.At pos))) next.old.items next.new.items) }
    {
        self.push_needs(pos, next)?;
        self.push_holder(pos, next)?;
        Ok(())
    }

    /// What is kept with a node by what it is.
    fn push_near(&self, node: Node, next: &mut Vec<usize>) -> Result<(), NoMemory>
        requires { number node < self.now.numbering.nodes }
        ensures { IfOk result (λ _. Gains (Numbered self.now.numbering.nodes (spec.NextAt self.now.tables node)) next.old.items next.new.items) }
    {
        match node {
            Node::At(pos) => {
                self.push_at(pos, next)?;
                Ok(())
            }
            Node::Join(pos) => {
                self.push(Item::Keeps(Node::At(pos)), next)?;
                Ok(())
            }
            Node::Exit => Ok(()),
        }
    }

    fn writes_at(&self, pos: Pos, loc: Loc) -> bool
        ensures { IsTrue result ↔ spec.Touched self.now.tables pos.0 loc }
    {
        match self.whom(Node::At(pos)) {
            Some(whom) => self.tables.called.writes(whom, loc),
            None => self.tables.flow.touch(pos).writes(loc),
        }
    }

    /// Whether a point writes a location.
    fn writes(&self, point: Point, loc: Loc) -> bool
        ensures { IsTrue result ↔ Writes (spec.Touched self.now.tables) loc point }
    {
        match point {
            Point::At(pos) => self.writes_at(pos, loc),
            Point::Join(_) => false,
            Point::Exit => false,
        }
    }

    /// That what a point writes to a location is needed.
    fn written(&self, loc: Loc, point: Point) -> Item
        requires node { number point < self.now.numbering.nodes }
        requires loc { loc_number loc < self.now.numbering.locs }
        ensures written { result ≡ spec.written_item self.now.tables loc point }
        ensures item { IsItem self.now.numbering.nodes self.now.numbering.locs result }
    {
        match self.whom(point) {
            Some(_) => Item::Written(loc, point),
            None => Item::Keeps(point),
        }
    }

    /// The position before another, where the walk came from it and nothing else leads to the other, which leads to one point alone, and it leaves a location
    /// alone: so each stretch is gone back along once for a location.
    fn back_at(&self, loc: Loc, pos: Pos) -> Option<Pos>
        ensures { result ≡ runs.back_at self.now.tables loc pos.0 }
    {
        let flow = self.tables.flow;
        if !flow.goes_straight(pos) {
            return None;
        }
        if !flow.before(Node::At(pos)).is_empty() {
            return None;
        }
        let Came::After(Node::At(before)) = flow.came(Node::At(pos)) else {
            return None;
        };
        if before.0 < pos.0 && flow.is_quiet(before, loc) {
            Some(before)
        } else {
            None
        }
    }

    /// Back from a position as far as that goes on.
    fn back(&self, loc: Loc, pos: Pos) -> Pos
        ensures { result.0 ≡ runs.settled (pos.0 + 1) self.now.tables loc pos.0 }
    {
        let mut here = pos;
        while let Some(before) = self.back_at(loc, here) {
            here = before;
        }
        here
    }

    /// Where a location that is needed at a point is searched on from: the beginning of the stretch that leaves it alone.
    fn settled(&self, loc: Loc, point: Point) -> Point
        ensures { result ≡ runs.back self.now.tables loc point }
    {
        match point {
            Point::At(pos) => {
                if self.tables.flow.is_quiet(pos, loc) {
                    Point::At(self.back(loc, pos))
                } else {
                    point
                }
            }
            Point::Join(_) => point,
            Point::Exit => point,
        }
    }

    /// On to a point before one at which a location is needed.
    fn passed(&self, loc: Loc, point: Point) -> Item
        requires node { number point < self.now.numbering.nodes }
        requires loc { loc_number loc < self.now.numbering.locs }
        ensures exact { (j : Item) → runs.Lands self.now.tables loc point j ↔ (j ≡ result) }
        ensures item { IsItem self.now.numbering.nodes self.now.numbering.locs result }
    {
        if self.writes(point, loc) {
            self.written(loc, point)
        } else {
            Item::Needs(loc, self.settled(loc, point))
        }
    }

    fn push_earlier(&self, loc: Loc, point: Point, next: &mut Vec<usize>) -> Result<(), NoMemory>
        requires node { number point < self.now.numbering.nodes }
        requires loc { loc_number loc < self.now.numbering.locs }
        ensures { IfOk result (λ _. Gains (Numbered self.now.numbering.nodes (runs.Lands self.now.tables loc point)) next.old.items next.new.items) }
    {
        let item = self.passed(loc, point);
        self.push(item, next)?;
        Ok(())
    }

    /// On to the point after which the walk came to a point.
    fn push_came(&self, loc: Loc, point: Point, next: &mut Vec<usize>) -> Result<(), NoMemory>
        requires loc { loc_number loc < self.now.numbering.locs }
        ensures { IfOk result (λ _. Gains (Numbered self.now.numbering.nodes (λ j. (b : Node) × (spec.Arrives self.now.tables point b × runs.Lands self.now.tables loc b j))) next.old.items next.new.items) }
    {
        match self.tables.flow.came(point) {
            Came::After(earlier) => {
                self.push_earlier(loc, earlier, next)?;
                Ok(())
            }
            Came::First => Ok(()),
            Came::Never => Ok(()),
        }
    }

    /// On to the points that lead to a point by branches and ends.
    fn push_ways(&self, loc: Loc, point: Point, next: &mut Vec<usize>) -> Result<(), NoMemory>
        requires loc { loc_number loc < self.now.numbering.locs }
        ensures { IfOk result (λ _. Gains (Numbered self.now.numbering.nodes (spec.FromEach (ways_to self.now.tables.flow.now.before.items point) (runs.Lands self.now.tables loc))) next.old.items next.new.items) }
    {
        for earlier in self.tables.flow.before(point) {
            self.push_earlier(loc, *earlier, next)?;
        }
        Ok(())
    }

    /// From a location that is needed at a point.
    fn push_before(&self, loc: Loc, point: Point, next: &mut Vec<usize>) -> Result<(), NoMemory>
        requires { loc_number loc < self.now.numbering.locs }
        ensures { IfOk result (λ _. Gains (Numbered self.now.numbering.nodes (runs.Short self.now.tables (Item.Needs loc point))) next.old.items next.new.items) }
    {
        self.push_came(loc, point, next)?;
        self.push_ways(loc, point, next)?;
        Ok(())
    }

    /// From a kept node.
    fn push_kept(&self, node: Node, next: &mut Vec<usize>) -> Result<(), NoMemory>
        requires { number node < self.now.numbering.nodes }
        ensures { IfOk result (λ _. Gains (Numbered self.now.numbering.nodes (spec.Next self.now.tables (Item.Keeps node))) next.old.items next.new.items) }
    {
        self.push_near(node, next)?;
        self.push_nodes(self.tables.names.joined(node), next)?;
        self.push_deciders(node, next)?;
        Ok(())
    }

    fn push_decider(&self, decider: Option<Pos>, next: &mut Vec<usize>) -> Result<(), NoMemory>
        requires { (p : Pos) → decider ≡ Some p → number (At p.0) < self.now.numbering.nodes }
        ensures { IfOk result (λ _. Gains (Numbered self.now.numbering.nodes (spec.Decider decider)) next.old.items next.new.items) }
    {
        match decider {
            Some(pos) => {
                self.push(Item::Keeps(Node::At(pos)), next)?;
                Ok(())
            }
            None => Ok(()),
        }
    }

    /// The nearest deciders of a node.
    fn push_deciders(&self, node: Node, next: &mut Vec<usize>) -> Result<(), NoMemory>
        ensures { IfOk result (λ _. Gains (Numbered self.now.numbering.nodes (spec.NextDecider self.now.tables node)) next.old.items next.new.items) }
    {
        let nearest = self.tables.deciders.nearest(node);
        self.push_decider(nearest.earlier, next)?;
        self.push_decider(nearest.latest, next)?;
        Ok(())
    }

    /// From an output of a call: the call is kept, and it depends on what the row has.
    fn push_made(&self, node: Node, made: Made, next: &mut Vec<usize>) -> Result<(), NoMemory>
        requires { number node < self.now.numbering.nodes }
        ensures { IfOk result (λ _. Gains (Numbered self.now.numbering.nodes (λ j. (j ≡ Item.Keeps node) ⊎ spec.ForOutput self.now.tables (output_of made) node
            (spec.whom_in self.now.tables node) j)) next.old.items next.new.items) }
    {
        self.push(Item::Keeps(node), next)?;
        self.push_output(node, made, next)?;
        Ok(())
    }

    fn push_from(&self, item: Item, next: &mut Vec<usize>) -> Result<(), NoMemory>
        requires { IsItem self.now.numbering.nodes self.now.numbering.locs item }
        ensures { IfOk result (λ _. Gains (Numbered self.now.numbering.nodes (runs.Short self.now.tables item)) next.old.items next.new.items) }
    {
        match item {
            Item::Keeps(node) => {
                self.push_kept(node, next)?;
                Ok(())
            }
            Item::Value(node) => {
                self.push_made(node, Made::Ret, next)?;
                Ok(())
            }
            Item::Written(loc, node) => {
                self.push_made(node, Made::Final(loc), next)?;
                Ok(())
            }
            Item::Needs(loc, point) => {
                self.push_before(loc, point, next)?;
                Ok(())
            }
        }
    }
}

impl Graph for Closing<'_> {
    ghost node_count = { λ closing. (2 * closing.numbering.locs + 2) * closing.numbering.nodes };

    ghost leads = { λ closing. PackedEdge (IsItem closing.numbering.nodes closing.numbering.locs) (item_number closing.numbering.nodes) (runs.Short closing.tables) };

    fn node_count(&self) -> usize {
        self.numbering.count()
    }

    fn push_next(&self, node: usize, next: &mut Vec<usize>) -> Result<(), NoMemory> {
        let item = self.numbering.item(node);
        self.push_from(item, next)?;
        Ok(())
    }

    ghost stays = { λ closing x y lt e. short_stays closing.numbering.nodes closing.numbering.locs closing.tables closing.fits x y e };
}
