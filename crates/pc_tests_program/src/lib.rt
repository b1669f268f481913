//! Tests of the program's commands over memory: words of a command line, settings, loads, and how each ends. They use
//! public names alone and stand beside `pc_sim`, which would be proved twice with tests of its own.
#![tactic(auto)]

#[cfg(test)]
mod lab;
#[cfg(test)]
mod program;
#[cfg(test)]
mod seeds;
#[cfg(test)]
mod settings;
