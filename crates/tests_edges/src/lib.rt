//! What sources and sinks do where something fails: tests alone.
#![tactic(auto)]

#[cfg(test)]
mod input_output;
