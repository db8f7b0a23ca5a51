//! The nesting of a body.

ghost use Rattle.std.specs.Prelude.{◌≡◌, ◌<◌, ℕ, IfOk, IfSome, None, length};
ghost use Rattle.wasm_types.specs.declared.module.Body.{Body};
ghost use Rattle.wasm_types.specs.Code.{code_of};
ghost use Rattle.block_cfg.specs.Points.{HasPoints};
ghost use Rattle.control_deps.specs.Nest.{AreNested, IsAround, IsNestOf};
ghost use Rattle.control_deps.specs.Straight.{spots_back, straight};

use crate::spot::{Packed, spot_at};
use crate::straight::all_straight;
use crate::walk::walk_code;
use std::alloc::Global;
use std::marker::Model;
use wasm_types::{Body, NoMemory, Pos};

/// What is kept of the positions of a body, to tell what is around each and what each branch decides about: of a body without blocks and branches how many
/// there are.
#[derive(Drop)]
pub struct Nest {
    straight: usize,
    spots: Vec<Packed>,
}

impl Model for Nest {
    ghost use Rattle.std.specs.Prelude.{List};
    ghost use Rattle.control_deps.specs.declared.spot.Spot.{Spot};
    ghost use Rattle.control_deps.specs.Nest.{AreNested};
    ghost use Rattle.control_deps.specs.Straight.{spots_back};

    ghost Value = { List Spot };

    ghost view = { λ n. spots_back n.straight n.spots.items };

    ghost invariant = { λ n. AreNested (spots_back n.straight n.spots.items) };
}

impl Nest {
    /// The nesting of a body. An error comes only where memory is refused.
    pub fn of(alloc: Global, body: &Body) -> Result<Nest, NoMemory>
        requires { HasPoints body.now }
        ensures { IfOk result (λ nest. IsNestOf body.now nest) }
    {
        let code = body.code.as_slice();
        if all_straight(code) {
            return Ok(Nest {
                straight: code.len(),
                spots: Vec::new(alloc),
            });
        }
        let mut spots = Vec::with_capacity(alloc, code.len()).map_err(|_| NoMemory)?;
        walk_code(&mut spots, code, 0, None, 0, true)?;
        Ok(Nest { straight: 0, spots })
    }

    /// The innermost block, loop or if that encloses a position of the body, dead ones among them: none exactly where there is none.
    pub fn around(&self, pos: Pos) -> Option<Pos>
        requires { pos.0 < length self.now }
        ensures { (body : Body) → IsNestOf body self.now → IsAround (code_of body.code) pos.0 result }
    {
        if self.straight != 0 {
            return None;
        }
        spot_at(self.spots.as_slice(), pos.0 as usize).around
    }

    /// Each position, where the body has blocks or branches.
    pub(crate) fn spots(&self) -> Option<&[Packed]>
        ensures some { IfSome result (λ spots. spots.now ≡ self.now) }
        ensures none { result ≡ None → (n : ℕ) × (self.now ≡ straight 0 n) }
        ensures nested { AreNested self.now }
    {
        if self.straight == 0 {
            Some(self.spots.as_slice())
        } else {
            None
        }
    }
}
