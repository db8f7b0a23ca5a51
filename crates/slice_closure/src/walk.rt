//! One walk over a body, which finds what its positions touch and take, and what leads to its points.

ghost use Rattle.std.specs.Prelude.{◌≡◌, ◌+◌, ◌^◌, ◌≤◌, ◌<◌, ◌++◌, ◌∷◌, [], IfOk, length, map, reverse};
ghost use Rattle.wasm_types.specs.Code.{code_of, count, done, onto};
ghost use Rattle.block_cfg.specs.Walk.{goes_on, target_of};
ghost use Rattle.slice_closure.specs.Takens.{taken_by};
ghost use Rattle.slice_closure.specs.Flow as spec;

use crate::packed::Packed;
use crate::spot::{Came, Spot, Taken, Touch, taken_by, through, touch_of};
use std::alloc::Global;
use wasm_types::{Instr, NoMemory, Point, Pos};

/// The positions that were passed, and ways to points from points that lead there: those of branches, and of the ends of blocks.
#[derive(Drop)]
pub(crate) struct Trail {
    pub(crate) spots: Vec<Packed>,
    pub(crate) ways: Vec<(Point, Point)>,
}

/// Where the labels around an instruction lead, the outermost first.
pub(crate) type Labels = Vec<Point>;

/// Where a label leads: to the end of the body where there is no such label.
fn target(labels: &[Point], label: u32) -> Point
    ensures { result ≡ target_of (reverse labels.now) label }
{
    let depth = label as usize;
    if depth >= labels.len() {
        return Point::Exit;
    }
    labels[labels.len() - 1 - depth]
}

/// Whether what follows an instruction in its sequence can be live.
fn goes_on(instr: &Instr) -> bool
    ensures { result ≡ goes_on instr.now }
{
    !matches!(
        instr,
        Instr::Br(_) | Instr::BrTable(_, _) | Instr::Return | Instr::Unreachable
    )
}

impl Trail {
    /// Nothing yet, with room asked for ahead for so many positions.
    pub(crate) fn with_capacity(alloc: Global, positions: usize) -> Result<Trail, NoMemory>
        ensures spots { IfOk result (λ trail. trail.spots.items ≡ []) }
        ensures ways { IfOk result (λ trail. trail.ways.items ≡ []) }
    {
        let spots = Vec::with_capacity(alloc, positions).map_err(|_| NoMemory)?;
        Ok(Trail {
            spots,
            ways: Vec::new(alloc),
        })
    }

    /// The position that comes next.
    fn here(&self) -> Pos
        requires { length self.now.spots.items < 2 ^ 32 }
        ensures { result.0 ≡ length self.now.spots.items }
    {
        Pos(self.spots.len() as u32)
    }

    /// A position more.
    fn pass(&mut self, came: Came, touch: Touch, taken: Taken) -> Result<(), NoMemory>
        ensures spots { IfOk result (λ _. self.new.spots.items ≡ self.old.spots.items ++ record { came = came; touch = touch; taken = taken } ∷ []) }
        ensures ways { IfOk result (λ _. self.new.ways.items ≡ self.old.ways.items) }
    {
        let spot = Packed::of(Spot { came, touch, taken });
        self.spots.push(spot).map_err(|_| NoMemory)?;
        Ok(())
    }

    /// A way more.
    fn add(&mut self, to: Point, from: Point) -> Result<(), NoMemory>
        ensures spots { IfOk result (λ _. self.new.spots.items ≡ self.old.spots.items) }
        ensures ways { IfOk result (λ _. self.new.ways.items ≡ self.old.ways.items ++ (to, from) ∷ []) }
    {
        self.ways.push((to, from)).map_err(|_| NoMemory)?;
        Ok(())
    }

    /// The end of a sequence leads to a point, where it is live.
    pub(crate) fn lead(&mut self, came: Came, to: Point) -> Result<(), NoMemory>
        ensures spots { IfOk result (λ _. self.new.spots.items ≡ self.old.spots.items) }
        ensures ways { IfOk result (λ _. self.new.ways.items ≡ self.old.ways.items ++ spec.lead came to) }
    {
        if let Came::After(from) = came {
            self.add(to, from)?;
        }
        Ok(())
    }

    /// A branch by a table.
    fn leave_each(
        &mut self,
        labels: &[Point],
        some: &[u32],
        other: u32,
        from: Point,
    ) -> Result<(), NoMemory>
        ensures spots { IfOk result (λ _. self.new.spots.items ≡ self.old.spots.items) }
        ensures ways { IfOk result (λ _. self.new.ways.items ≡ self.old.ways.items ++ (target_of (reverse labels.now) other, from) ∷ map (λ l. (target_of (reverse labels.now) l, from)) some.now) }
    {
        self.add(target(labels, other), from)?;
        for label in some {
            self.add(target(labels, *label), from)?;
        }
        Ok(())
    }

    /// The targets of a branch at a position.
    fn leave(&mut self, labels: &[Point], instr: &Instr, pos: Pos) -> Result<(), NoMemory>
        ensures spots { IfOk result (λ _. self.new.spots.items ≡ self.old.spots.items) }
        ensures ways { IfOk result (λ _. self.new.ways.items ≡ self.old.ways.items ++ spec.leaves (reverse labels.now) instr.now pos.0) }
    {
        let from = Point::At(pos);
        match instr {
            Instr::Br(label) | Instr::BrIf(label) => self.add(target(labels, *label), from),
            Instr::BrTable(some, other) => self.leave_each(labels, some.as_slice(), *other, from),
            Instr::Return => self.add(Point::Exit, from),
            _ => Ok(()),
        }
    }

    /// Goes past an instruction that holds no others.
    fn pass_plain(&mut self, labels: &[Point], instr: &Instr, came: Came) -> Result<Came, NoMemory>
        requires { length self.old.spots.items < 2 ^ 32 }
        ensures spots { IfOk result (λ _. self.new.spots.items ≡ self.old.spots.items ++ record { came = came; touch = spec.touch_of instr.now; taken = taken_by instr.now } ∷ []) }
        ensures ways { IfOk result (λ _. self.new.ways.items ≡ self.old.ways.items ++ spec.where_came came (spec.leaves (reverse labels.now) instr.now (length self.old.spots.items))) }
        ensures came { IfOk result (λ end. end ≡ spec.onward came instr.now (length self.old.spots.items)) }
    {
        let pos = self.here();
        self.pass(came, touch_of(instr), taken_by(instr))?;
        if let Came::Never = came {
            return Ok(Came::Never);
        }
        self.leave(labels, instr, pos)?;
        if goes_on(instr) {
            Ok(through(came, Point::At(pos)))
        } else {
            Ok(Came::Never)
        }
    }
}

/// Goes past an instruction. The answer is how the walk comes to what is next.
#[cycle(walk)]
fn walk_instr(
    trail: &mut Trail,
    labels: &mut Labels,
    instr: &Instr,
    came: Came,
) -> Result<Came, NoMemory>
    requires { length trail.old.spots.items + count (onto instr.now done) ≤ 2 ^ 32 }
    ensures labels { IfOk result (λ _. labels.new.items ≡ labels.old.items) }
    ensures found { IfOk result (λ end. spec.Walks (reverse labels.old.items) came (onto instr.now done) trail.old trail.new end) }
{
    match instr {
        Instr::Block(_, inner) => {
            let pos = trail.here();
            let label = Point::Join(pos);
            trail.pass(came, Touch::Nothing, Taken::All)?;
            let inside = through(came, Point::At(pos));
            walk_inner(trail, labels, label, inner.as_slice(), inside, label)?;
            Ok(through(came, label))
        }
        Instr::Loop(_, inner) => {
            let pos = trail.here();
            let (label, join) = (Point::At(pos), Point::Join(pos));
            trail.pass(came, Touch::Nothing, Taken::All)?;
            let inside = through(came, label);
            walk_inner(trail, labels, label, inner.as_slice(), inside, join)?;
            Ok(through(came, join))
        }
        Instr::If(_, first, second) => {
            let pos = trail.here();
            let label = Point::Join(pos);
            trail.pass(came, Touch::Nothing, Taken::Test)?;
            let inside = through(came, Point::At(pos));
            walk_inner(trail, labels, label, first.as_slice(), inside, label)?;
            walk_inner(trail, labels, label, second.as_slice(), inside, label)?;
            Ok(through(came, label))
        }
        _ => {
            let end = trail.pass_plain(labels, instr, came)?;
            Ok(end)
        }
    }
}

/// Goes past the contents of a block, a loop or an arm, within one label more, the end of which leads to `join`.
#[cycle(walk)]
fn walk_inner(
    trail: &mut Trail,
    labels: &mut Labels,
    label: Point,
    code: &[Instr],
    came: Came,
    join: Point,
) -> Result<(), NoMemory>
    requires { length trail.old.spots.items + count (code_of code.now) ≤ 2 ^ 32 }
    ensures labels { IfOk result (λ _. labels.new.items ≡ labels.old.items) }
    ensures found { IfOk result (λ _. spec.WalksInner (label ∷ reverse labels.old.items) came (code_of code.now) join trail.old trail.new) }
{
    labels.push(label).map_err(|_| NoMemory)?;
    let end = walk_code(trail, labels, code, came)?;
    labels.pop();
    trail.lead(end, join)?;
    Ok(())
}

/// Goes past a sequence. The answer is how the walk comes to its end.
#[cycle(walk)]
pub(crate) fn walk_code(
    trail: &mut Trail,
    labels: &mut Labels,
    code: &[Instr],
    came: Came,
) -> Result<Came, NoMemory>
    requires { length trail.old.spots.items + count (code_of code.now) ≤ 2 ^ 32 }
    ensures labels { IfOk result (λ _. labels.new.items ≡ labels.old.items) }
    ensures found { IfOk result (λ end. spec.Walks (reverse labels.old.items) came (code_of code.now) trail.old trail.new end) }
{
    let mut end = came;
    for instr in code {
        end = walk_instr(trail, labels, instr, end)?;
    }
    Ok(end)
}
