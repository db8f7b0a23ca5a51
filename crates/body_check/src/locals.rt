//! The types of a function's locals, its parameters first.

ghost use Rattle.std.specs.Prelude.{◌≡◌, ◌+◌, ◌^◌, ◌<◌, ◌++◌, IfOk, length, replicate, slice_get};

use std::alloc::Global;
use std::marker::Model;
use wasm_types::{LocalRun, NoMemory, ValType};

/// Where a run of locals of one type ends: the number after its last.
#[derive(Clone, Copy)]
pub(crate) struct RunEnd {
    end: u64,
    kind: ValType,
}

/// The types of locals, kept as runs: as a list, the type of each.
#[derive(Drop)]
pub(crate) struct Locals {
    ends: Vec<RunEnd>,
    count: u64,
}

impl Model for Locals {
    ghost use Rattle.std.specs.Prelude.{List};
    ghost use Rattle.wasm_types.specs.declared.module.ValType.{ValType};
    ghost use Rattle.body_check.specs.Locals.{types_from, Reaches};

    ghost Value = { List ValType };

    ghost view = { λ l. types_from 0 l.ends.items };

    ghost invariant = { λ l. Reaches 0 l.ends.items l.count };
}

impl Locals {
    ghost use Rattle.wasm_types.specs.Sections.{local_count};
    ghost use Rattle.wasm_types.specs.Spaces.{run_types};

    /// The locals of a function: its parameters, and those that the runs declare.
    pub(crate) fn new(
        alloc: Global,
        params: &[ValType],
        runs: &[LocalRun],
    ) -> Result<Locals, NoMemory>
        requires params { length params.now < 2 ^ 31 }
        requires locals { local_count runs.now < 2 ^ 32 }
        ensures { IfOk result (λ l. l ≡ params.now ++ run_types runs.now) }
    {
        let mut locals = Locals {
            ends: Vec::new(alloc),
            count: 0,
        };
        locals.push_params(params)?;
        locals.push_runs(runs)?;
        Ok(locals)
    }

    /// One local for each type.
    fn push_params(&mut self, params: &[ValType]) -> Result<(), NoMemory>
        requires { length self.old + length params.now < 2 ^ 33 }
        ensures { IfOk result (λ _. self.new ≡ self.old ++ params.now) }
    {
        for kind in params {
            self.push(1, *kind)?;
        }
        Ok(())
    }

    /// The locals that the runs declare.
    fn push_runs(&mut self, runs: &[LocalRun]) -> Result<(), NoMemory>
        requires { length self.old + local_count runs.now < 2 ^ 33 }
        ensures { IfOk result (λ _. self.new ≡ self.old ++ run_types runs.now) }
    {
        for run in runs {
            self.push(run.count, run.kind)?;
        }
        Ok(())
    }

    /// So many locals of one type.
    fn push(&mut self, count: u32, kind: ValType) -> Result<(), NoMemory>
        requires { length self.old + count < 2 ^ 64 }
        ensures { IfOk result (λ _. self.new ≡ self.old ++ replicate count kind) }
    {
        let end = self.count + u64::from(count);
        self.ends.push(RunEnd { end, kind }).map_err(|_| NoMemory)?;
        self.count = end;
        Ok(())
    }

    /// The type of a local: none exactly where there are not so many.
    pub(crate) fn get(&self, local: u32) -> Option<ValType>
        ensures { result ≡ slice_get self.now local }
    {
        let local = u64::from(local);
        let at = self.ends.partition_point(|run| run.end <= local);
        match self.ends.get(at) {
            Some(run) => Some(run.kind),
            None => None,
        }
    }
}
