//! An instance that a run without turns left has spent.

ghost use Rattle.std.specs.Prelude.{◌≡◌, ◌≤◌, [], ◌∷◌, IfOk, IsTrue, Some, length};
ghost use Rattle.wasm_types.specs.declared.module.FuncType.{FuncType};
ghost use Rattle.wasm_types.specs.declared.module.Value.TheVariants as value;
ghost use Rattle.wasm_types.specs.Spaces.{type_of_func};
ghost use Rattle.wasm_meaning.specs.Fits.{HaveTypes};
ghost use Rattle.wasm_meaning.specs.State.{State};
ghost use Rattle.inst_make.specs.Instances.{IsInstance, StandsFor};
ghost use Rattle.ref_interp.specs.Invokes.{Serves};

use crate::flow::admitted;
use flat_code::{Program, compile};
use inst_make::{Instance, instantiate};
use ref_interp::{Call, InvokeEnd, invoke};
use run_store::Script;
use sqlite_items::Items;
use std::test::Fail;
use wasm_types::{Ended, ValType, ValidModule, Value};

/// `(func (param i32) (result i32)
/// local.get 0 if (result i32) local.get 0 i32.const 1 i32.sub call 0 else i32.const 0 end i32.const 1 i32.add)`
const RECURSIVE: &[u8] =
    b"\0asm\x01\0\0\0\x01\x06\x01\x60\x01\x7F\x01\x7F\x03\x02\x01\x00\x0A\x16\x01\x14\x00\x20\x00\x04\x7F\x20\x00\x41\x01\x6B\x10\x00\x05\x41\x00\x0B\x41\x01\x6A\x0B";

// The instance of a module without imports, before anything is run.
fn instance_of(rt: &HostRuntime, m: &ValidModule) -> Result<Instance, Fail>
    ensures fits { IfOk result (λ inst. IsInstance m.now inst) }
    ensures stands { IfOk result (λ inst. (s : State) × StandsFor inst s) }
{
    if !m.module().imports.is_empty() {
        return Err("an import")?;
    }
    let script = Script::new(Items::new(rt.alloc()));
    match instantiate(rt.alloc(), m, &[], 1024, script) {
        Ok(inst) => Ok(inst),
        Err(_) => Err("no instance")?,
    }
}

// Whether the first function takes one i32.
fn takes_one(m: &ValidModule) -> bool
    ensures { IsTrue result → (F : FuncType) × (type_of_func m.now 0 ≡ Some F) × HaveTypes (value.I32 3 ∷ []) F.params }
{
    match m.module().func_type(0) {
        Some(kind) => kind.params.as_slice() == [ValType::I32].as_slice(),
        None => false,
    }
}

// What an invocation on 3 answers after one that was out of two turns.
fn end_of_second(
    rt: &HostRuntime,
    m: &ValidModule,
    program: &Program,
    inst: &mut Instance,
) -> Result<InvokeEnd, Fail>
    requires code { Serves m.now program.now 0 None }
    requires kinds { (F : FuncType) × (type_of_func m.now 0 ≡ Some F) × HaveTypes (value.I32 3 ∷ []) F.params }
    requires fits { IsInstance m.now inst.old }
    requires stands { (s : State) × StandsFor inst.old s }
{
    let call = Call {
        func: 0,
        args: &[Value::I32(3)],
        budget: 2,
        watch: None,
    };
    match invoke(rt.alloc(), m, program, inst, &call) {
        Ok(run) => match run.ended {
            Ended::OutOfTurns => (),
            _ => return Err("an end within two turns")?,
        },
        Err(_) => return Err("no run")?,
    }
    match invoke(rt.alloc(), m, program, inst, &call) {
        Ok(_) => Err("a second run")?,
        Err(end) => Ok(end),
    }
}

// The same of the module that the bytes spell.
fn end_of_second_in(rt: &HostRuntime, bytes: &[u8]) -> Result<InvokeEnd, Fail>
    requires { length bytes.now ≤ 8388608 }
{
    let valid = admitted(rt, bytes)?;
    if !takes_one(&valid) {
        return Err("other parameters")?;
    }
    let Ok(program) = compile(rt.alloc(), &valid, None) else {
        return Err("no memory")?;
    };
    let mut inst = instance_of(rt, &valid)?;
    end_of_second(rt, &valid, &program, &mut inst)
}

#[test]
fn a_spent_instance_answers_nothing_more(rt: HostRuntime) -> Result<(), Fail> {
    assert_eq!(rt; end_of_second_in(&rt, RECURSIVE)?, InvokeEnd::Spent);
    Ok(())
}
