//! Tests of the libraries that agents stand on and of scripts, by their public names alone: a crate that has tests of
//! its own is proved twice. They try what no contract says; `pc_tests_agents` has the others.
#![tactic(auto)]

#[cfg(test)]
mod delta;
#[cfg(test)]
mod effects;
#[cfg(test)]
mod examples;
#[cfg(test)]
mod join;
#[cfg(test)]
mod joins;
#[cfg(test)]
mod kernel;
#[cfg(test)]
mod queue;
#[cfg(test)]
mod rows;
#[cfg(test)]
mod run_queue;
#[cfg(test)]
mod script;
#[cfg(test)]
mod view;
