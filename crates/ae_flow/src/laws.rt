// Laws of flows.

ghost use Rattle.ae_flow.specs.Laws.{FlowsFit, FlowsMean, SchedulesFit};

/// A law: in the schedule of a typed program, under a slowdown of at least one clock, each operator fits the layouts of
/// its arguments and its own.
pub fn schedules_fit()
    ensures { SchedulesFit }
{}

/// A law: where the instances are sound and fit, words that fit the parameters of one give each of its items words that
/// fit its layout.
pub fn flows_fit()
    ensures { FlowsFit }
{}

/// A law: what the schedule of a typed program makes of the words of its arguments is the words of what the program means.
pub fn flows_mean()
    ensures { FlowsMean }
{}
