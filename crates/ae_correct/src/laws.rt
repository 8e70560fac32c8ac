// The module of a circuit.

ghost use Rattle.ae_correct.specs.Laws.{CircuitsAreCorrect, CircuitsAreWritable, FeedsAreAlike, RunsAreAlike, RunsAreShown};

/// A law: a circuit for a typed program, where its load is at most 100,000, can be written as a module, however it was made.
pub fn circuits_are_writable()
    ensures { CircuitsAreWritable }
{}

/// A law: the module that a circuit for a typed program is written as, where it has the circuit's runs, is correct for the
/// program.
pub fn circuits_are_correct()
    ensures { CircuitsAreCorrect }
{}

/// A law: what a circuit shows of its run on the words of blocks, clock by clock, its module shows of the blocks.
pub fn runs_are_shown()
    ensures { RunsAreShown }
{}

/// A law: two circuits that have the runs of one module take the same rows, and where the one is sure to have exactly one
/// run on blocks, it shows in each clock what the other shows.
pub fn runs_are_alike()
    ensures feeds { FeedsAreAlike }
    ensures runs { RunsAreAlike }
{}
