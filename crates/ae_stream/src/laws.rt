// What passes through a circuit between two channels.

ghost use Rattle.ae_stream.specs.Laws.{BlocksAreTaken, ControlledCircuitsStream, DrivenCircuitsGoOn, DrivenCircuitsKeepWords, DrivenCircuitsStream, HeldCircuitsAreInside, HeldMarksAreSeen, WiredControlsAreDriven, WiredControlsHaveNoPaths};

/// A law: of a list of clocks in which blocks follow one another, the clocks that carry words stand in the list of
/// transfers at the number of their block among the real ones, and of their clock among the live ones.
pub fn blocks_are_taken()
    ensures { BlocksAreTaken }
{}

/// A law: in a run in which the control does what it is to do around a circuit that makes the blocks of a program, what
/// the sink takes is the first part of the results of what the source gave.
pub fn controlled_circuits_stream()
    ensures { ControlledCircuitsStream }
{}

/// A law: the same of a control whose registers take what they are to take, around a circuit that makes the blocks of a
/// program.
pub fn driven_circuits_stream()
    ensures { DrivenCircuitsStream }
{}

/// A law: words that stand at the sink of such a control and are not taken stand there in the next clock, the same.
pub fn driven_circuits_keep_words()
    ensures { DrivenCircuitsKeepWords }
{}

/// A law: such a control goes on. It asks the source at least once in as many clocks in a row as a block has, and one more, in
/// which the sink takes; as long as both ends go in each clock, so does the circuit; and where the sink takes and the source does
/// not stop inside a block, the results of all whole blocks come out soon, without further input.
pub fn driven_circuits_go_on()
    ensures { DrivenCircuitsGoOn }
{}

/// A law: where a copy of a netlist is held by the net that says that the circuit steps, and the circuit is the first cells of
/// that netlist, the clocks of each run in which the net is 1 are a run of the circuit, on the columns of both ends.
pub fn held_circuits_are_inside()
    ensures { HeldCircuitsAreInside }
{}

/// A law: a control whose gates and registers do, in each clock of a run that begins with reset, what they are to do, and whose
/// marks tell how many clocks before were steps of the circuit, takes what it is to take.
pub fn wired_controls_are_driven()
    ensures { WiredControlsAreDriven }
{}

/// A law: a net that has in every reset run of a netlist the words of a function of the clocks after reset has, where a copy of
/// the netlist is held by the net that says that the circuit steps, in each clock the word of the number of steps before it.
pub fn held_marks_are_seen()
    ensures { HeldMarksAreSeen }
{}

/// A law: what such a control says at its ports in a clock behind the reset, that it asks the source, that words stand at the sink,
/// and these words, is settled by the clocks before.
pub fn wired_controls_have_no_paths()
    ensures { WiredControlsHaveNoPaths }
{}
