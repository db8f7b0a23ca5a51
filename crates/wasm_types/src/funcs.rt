//! The functions of a module.

ghost use Rattle.std.specs.Prelude.{◌≡◌, ◌+◌, ◌^◌, ◌<◌, length};
ghost use Rattle.std.specs.Option.{option_copied};
ghost use Rattle.wasm_types.specs.Spaces.{FindsImport, body_of, func_import, func_types, import_count, imported, type_of_func};

use crate::module::{Body, FuncType, Import, ImportKind, Module};

/// How many of the imports are functions.
fn count_imports(imports: &[Import]) -> usize
    ensures { result ≡ length (imported func_import imports.now) }
{
    let mut count = 0;
    for import in imports {
        if let ImportKind::Func(_) = import.kind {
            count += 1;
        }
    }
    count
}

/// The type number of the imported function with the number, or how many numbers are left for the functions that are not imported.
fn import_type(imports: &[Import], func: u32) -> Result<u32, u32>
    ensures { FindsImport result func (imported func_import imports.now) }
{
    let mut left = func;
    for import in imports {
        if let ImportKind::Func(kind) = import.kind {
            if left == 0 {
                return Ok(kind);
            }
            left -= 1;
        }
    }
    Err(left)
}

impl Module {
    /// The number of functions, imported and own.
    pub fn func_count(&self) -> u32
        requires { length (func_types self.now) < 2 ^ 32 }
        ensures { result ≡ length (func_types self.now) }
    {
        (count_imports(self.imports.as_slice()) + self.funcs.len()) as u32
    }

    /// The type of a function: none exactly where no function, or no type, has that number.
    pub fn func_type(&self, func: u32) -> Option<&FuncType>
        ensures { option_copied result ≡ type_of_func self.now func }
    {
        let kind = match import_type(self.imports.as_slice(), func) {
            Ok(kind) => kind,
            Err(own) => *self.funcs.get(own as usize)?,
        };
        self.types.get(kind as usize)
    }

    /// The body of a function: none exactly where it is imported, is no function of the module, or has no entry among the bodies.
    pub fn body(&self, func: u32) -> Option<&Body>
        ensures { option_copied result ≡ body_of self.now func }
    {
        match import_type(self.imports.as_slice(), func) {
            Ok(_) => None,
            Err(own) => {
                if own as usize >= self.funcs.len() {
                    return None;
                }
                self.bodies.get(own as usize)
            }
        }
    }
}
