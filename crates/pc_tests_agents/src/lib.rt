//! Tests of agents, the world, sessions, what is told of scripts, the book and the lab, by their public names alone:
//! beside `pc_tests`, so that two jobs share the proofs of tests. They try what no contract says.
#![tactic(auto)]

#[cfg(test)]
mod advice;
#[cfg(test)]
mod agent;
#[cfg(test)]
mod examples;
#[cfg(test)]
mod explain;
#[cfg(test)]
mod lab;
#[cfg(test)]
mod protocol;
#[cfg(test)]
mod seeds;
#[cfg(test)]
mod session;
#[cfg(test)]
mod settings;
#[cfg(test)]
mod threads;
#[cfg(test)]
mod world;
