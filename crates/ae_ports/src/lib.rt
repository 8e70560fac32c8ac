//! The ports of a circuit, by the layouts of parameters and results, and what the circuit for a program is: definitions alone.
#![tactic(auto)]
