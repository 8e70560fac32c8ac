// What the circuit of a schedule is to its programs.

ghost use Rattle.ae_lower.specs.Laws.{CircuitsAreFor};

/// A law: the circuit of a schedule is one for each typed program that has the schedule, by the layouts of its parameters and
/// results and the costs of its program function.
pub fn circuits_are_for()
    ensures { CircuitsAreFor }
{}
