// The module of a stalled circuit.

ghost use Rattle.ae_stalled.specs.Laws.{StalledCircuitsAreCorrect, StalledCircuitsAreWritable};

/// A law: the stalled circuit for a typed program, where its load is at most 50,000, can be written as a module.
pub fn stalled_circuits_are_writable()
    ensures { StalledCircuitsAreWritable }
{}

/// A law: the module that the stalled circuit for a typed program is written as, where it has the circuit's runs, is correct
/// for the program in the clocks in which its enable is 1.
pub fn stalled_circuits_are_correct()
    ensures { StalledCircuitsAreCorrect }
{}
