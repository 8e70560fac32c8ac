// The layouts of the parameters and the results of an instance.

ghost use Rattle.std.specs.Prelude.{◌≡◌, ◌<◌, ℕ, length, map, IfOk, Some, slice_get};
ghost use Rattle.ae_sttype.specs.StTree.{st_tree};
ghost use Rattle.ae_rewrite.specs.StProgramTree.{st_func_tree};
ghost use Rattle.ae_rewrite.specs.Sound.{item_layouts};
ghost use Rattle.ae_lower.specs.Circuits.{results_of};

use ae_delay::layout;
use ae_rewrite::StFunc;
use ae_sttype::StType;
use std::alloc::{AllocError, Global};

// The layouts of an instance's parameters.
pub fn input_layouts(alloc: Global, s: &StFunc) -> Result<Vec<StType>, AllocError>
    ensures { IfOk result (λ v. map st_tree v.items ≡ (st_func_tree s.now).ins) }
{
    let mut layouts = Vec::new(alloc);
    for ty in &s.ins {
        layouts.push(ty.copy(alloc)?)?;
    }
    Ok(layouts)
}

/// The layouts of the results of an instance.
pub fn output_layouts(alloc: Global, s: &StFunc) -> Result<Vec<StType>, AllocError>
    requires { (i r : ℕ) → slice_get (st_func_tree s.now).results i ≡ Some r → r < length (item_layouts (st_func_tree s.now)) }
    ensures { IfOk result (λ v. map st_tree v.items ≡ results_of (st_func_tree s.now)) }
{
    let mut layouts = Vec::new(alloc);
    for item in &s.results {
        layouts.push(layout(s, *item as usize).copy(alloc)?)?;
    }
    Ok(layouts)
}
