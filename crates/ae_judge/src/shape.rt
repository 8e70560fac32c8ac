// What every spelled module has.

ghost use Rattle.std.specs.Prelude.{ℕ, List, length, ◌<◌, ◌^◌};
ghost use Rattle.ae_vmodule.specs.ModuleTree.{ModuleTree};
ghost use Rattle.ae_vread.specs.Spells.{Spells};
ghost use Rattle.ae_judge.specs.Shape.{IsShapely};

/// A law: a module that a text of fewer than 2 to the 32 bytes spells is shapely, which reading it and building from it
/// may rest on.
pub fn spelled_shape()
    ensures { (text : List ℕ) (m : ModuleTree) → length text < 2 ^ 32 → Spells text m → IsShapely m }
{}
