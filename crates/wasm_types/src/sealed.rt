//! Modules that are known to be valid and of the subset.

ghost use Rattle.std.specs.Prelude.{◌≡◌};

use crate::module::Module;
use std::marker::Model;

/// A module that is valid (docs/VALIDITY.md), has no float, and keeps the limits of modules that are answered and the greatest nesting.
#[derive(Drop)]
pub struct ValidModule {
    module: Module,
}

impl Model for ValidModule {
    ghost use Rattle.std.specs.Coded.{codes};
    ghost use Rattle.wasm_types.specs.contracts.module.Module as whole;
    ghost use Rattle.wasm_types.specs.declared.module.Module.{Module};
    ghost use Rattle.wasm_types.specs.Subset.{IsSealed};

    ghost Value = { Module };

    ghost coded = { Prim.hlevel (codes, whole.the_row.coded) };

    ghost view = { λ v. v.module };

    ghost invariant = { λ v. IsSealed v.module };
}

impl ValidModule {
    ghost use Rattle.wasm_types.specs.Subset.{IsSealed};

    /// The module, sealed.
    pub fn seal(m: Module) -> ValidModule
        requires { IsSealed m }
        ensures { result ≡ m }
    {
        ValidModule { module: m }
    }

    /// The module.
    pub fn module(&self) -> &Module
        ensures same { result.now ≡ self.now }
        ensures sealed { IsSealed self.now }
    {
        &self.module
    }

    /// The module again.
    pub fn into_module(self) -> Module
        ensures same { result ≡ self }
        ensures sealed { IsSealed result }
    {
        self.module
    }
}
