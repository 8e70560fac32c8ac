//! The programs of demos.
#![tactic(auto)]

ghost use Rattle.ae_demo.specs.Demos.{DemosAreAccepted};

/// A law: each demo program is one that a circuit is made of, within the limit of load.
pub fn demos_are_accepted()
    ensures { DemosAreAccepted }
{}
