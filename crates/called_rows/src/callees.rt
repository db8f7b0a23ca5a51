//! What is known of the functions that a body calls.

ghost use Rattle.std.specs.Prelude.{◌≡◌, ◌+◌, ◌^◌, ◌<◌, ◌↔◌, IsTrue, slice_get};
ghost use Rattle.std.specs.Option.{option_copied};
ghost use Rattle.wasm_types.specs.declared.module.Module.{Module};
ghost use Rattle.flow_domain.specs.Summaries.{IsTableOf};
ghost use Rattle.call_graph.specs.Graph.{IsCallGraph};
ghost use Rattle.called_rows.specs.Called as spec;
ghost use Rattle.called_rows.specs.Classes.{IsTargetTable};
ghost use Rattle.called_rows.specs.Locs.{IsLoc, loc_number};
ghost use Rattle.called_rows.specs.Right.{IsCalled};
ghost use Rattle.called_rows.specs.Whom.{output_of};

use crate::classes::{TargetTable, Targets};
use crate::instrs::Whom;
use crate::locs::{is_marked, loc_at};
use crate::outputs::Made;
use call_graph::CallGraph;
use flow_domain::SummaryTable;
use wasm_types::Loc;

/// The graph of a module's calls, the rows of its functions, and what the functions do that a call through the table may find.
#[derive(Clone, Copy, Drop)]
pub struct Called<'a> {
    graph: &'a CallGraph,
    rows: &'a SummaryTable,
    targets: &'a TargetTable,
}

impl<'a> Called<'a> {
    /// Of these: they are a module's where each is.
    pub fn new(graph: &'a CallGraph, rows: &'a SummaryTable, targets: &'a TargetTable) -> Called<'a>
        ensures graph { result.graph.now ≡ graph.now }
        ensures rows { result.rows.now ≡ rows.now }
        ensures targets { result.targets.now ≡ targets.now }
        ensures called { (m : Module) → IsCallGraph m graph.now → IsTableOf m rows.now → IsTargetTable m graph.now rows.now targets.now → IsCalled m result }
    {
        Called {
            graph,
            rows,
            targets,
        }
    }
}

impl Called<'_> {
    /// How many globals the module has.
    pub fn globals(&self) -> u32
        ensures { result ≡ spec.globals_in self.now }
    {
        self.targets.globals()
    }

    /// The location of a number, locals left out.
    pub fn loc(&self, index: usize) -> Loc
        requires { index < spec.globals_in self.now + 3 }
        ensures number { loc_number (spec.globals_in self.now) result ≡ index }
        ensures there { IsLoc (spec.globals_in self.now) 0 result }
    {
        loc_at(self.globals(), index)
    }

    /// What is known of the functions that a call through the table by a type number may find.
    fn targets(&self, kind: u32) -> Option<&Targets>
        ensures { option_copied result ≡ spec.targets_at self.now kind }
    {
        let class = self.graph.class_by(kind)?;
        self.targets.at(class)
    }

    /// Whether the row of whom a call calls has a location.
    pub fn has(&self, whom: Whom, made: Made, loc: Loc) -> bool
        ensures { IsTrue result ↔ spec.RowIn self.now whom (output_of made) loc }
    {
        match whom {
            Whom::Own(func) => match self.rows.get(func) {
                Some(rows) => made.needs(rows, loc),
                None => false,
            },
            Whom::Through(kind) => match self.targets(kind) {
                Some(targets) => made.needs(&targets.rows, loc),
                None => false,
            },
        }
    }

    /// Whether the row of whom a call calls has a parameter.
    fn has_param(&self, whom: Whom, made: Made, index: usize) -> bool
        ensures { IsTrue result ↔ ((index < 2 ^ 32) × spec.RowIn self.now whom (output_of made) (Loc.Local index)) }
    {
        match u32::try_from(index) {
            Ok(local) => self.has(whom, made, Loc::Local(local)),
            Err(_) => false,
        }
    }

    /// Whether an output of a call depends on one of its operands, of so many, the deepest being 0: the row of whom it calls has that parameter, or it is the
    /// index of a call through the table.
    pub fn takes(&self, whom: Whom, made: Made, count: usize, index: usize) -> bool
        requires { index < count }
        ensures { IsTrue result ↔ spec.TakesIn self.now whom (output_of made) count index }
    {
        self.has_param(whom, made, index) || whom.is_last(count, index)
    }

    /// Whether a call writes a location.
    pub fn writes(&self, whom: Whom, loc: Loc) -> bool
        ensures { IsTrue result ↔ spec.WritesBy self.now whom loc }
    {
        match whom {
            Whom::Own(func) => self.graph.writes(func, loc),
            Whom::Through(kind) => match self.targets(kind) {
                Some(targets) => is_marked(self.globals(), &targets.writes, loc),
                None => false,
            },
        }
    }

    /// Whether a location decides by itself if a call stops.
    pub fn checks(&self, whom: Whom, made: Made, loc: Loc) -> bool
        ensures { IsTrue result ↔ spec.ChecksBy self.now whom (output_of made) loc }
    {
        match (whom, made) {
            (Whom::Through(kind), Made::Done) => match self.targets(kind) {
                Some(targets) => is_marked(self.globals(), &targets.touches, loc),
                None => false,
            },
            _ => false,
        }
    }
}
