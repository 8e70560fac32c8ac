// A module's runs are those of the module with its items in another order.

ghost use Rattle.std.specs.Prelude.{List, ◌↔◌};
ghost use Rattle.std.specs.List.Sorted.{IsPermutation};
ghost use Rattle.ae_netlist.specs.Circuit.{Circuit};
ghost use Rattle.ae_vmodule.specs.ModuleTree.{ItemTree, ModuleTree};
ghost use Rattle.ae_judge.specs.Faults.{IsWellFormed};
ghost use Rattle.ae_runs.specs.Runs.{IsModuleRun};
ghost use Rattle.ae_runs.specs.SameRuns.{HasSameRuns};
ghost use Rattle.ae_runs.specs.Values.{ModuleClock};
ghost use Rattle.ae_reordered.specs.Reordered.{reordered};

/// A law: a well-formed module and the same items in another order have the same runs; so what a module is elaborated to has
/// the runs of each of its orders.
pub fn orders_are_alike()
    ensures runs { (m : ModuleTree) (items : List ItemTree) (run : List ModuleClock) → IsWellFormed m → IsPermutation m.items items → IsModuleRun m run ↔ IsModuleRun (reordered m items) run }
    ensures netlists { (m : ModuleTree) (items : List ItemTree) (n : Circuit) → IsWellFormed m → IsPermutation m.items items → HasSameRuns m n → HasSameRuns (reordered m items) n }
{}
