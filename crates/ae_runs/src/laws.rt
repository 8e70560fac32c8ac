// What the runs of a module are.

ghost use Rattle.std.specs.Prelude.{ℕ, List, length, ◌<◌};
ghost use Rattle.ae_vmodule.specs.ModuleTree.{ModuleTree};
ghost use Rattle.ae_runs.specs.Values.{ModuleClock};
ghost use Rattle.ae_runs.specs.Runs.{HasOneModuleRun, IsModuleRunOn, IsModuleShaped, clock_at};
ghost use Rattle.ae_judge.specs.Faults.{IsWellFormed};
ghost use Rattle.ae_runs.specs.PlainRun.{plain_run};
ghost use Rattle.ae_runs.specs.Guards.{GuardsDo};
ghost use Rattle.ae_runs.specs.Realizes.{RealizesSo};

/// A law: a well-formed module has, for all inputs and all first words of its registers and memories, exactly one run;
/// it is the one that the plain way gives. So what is said of every run is never said of nothing.
pub fn one_run()
    ensures once { (m : ModuleTree) → IsWellFormed m → HasOneModuleRun m }
    ensures plain { (m : ModuleTree) → IsWellFormed m → (given : List ModuleClock) → ((t : ℕ) → t < length given → IsModuleShaped m (clock_at given t)) → IsModuleRunOn m given (plain_run m given) }
{}

/// A law: what a statement does at a clock edge is one guarded choice for each assignment, where an `if` guards both its
/// branches, one behind the other. So a netlist needs no merging of branches.
pub fn guards_do()
    ensures { GuardsDo }
{}

/// A law: a netlist that realizes a well-formed module has the same runs: equal inputs and equal first words give equal
/// outputs, and each run of the one has such a run of the other.
pub fn same_runs()
    ensures { RealizesSo }
{}
