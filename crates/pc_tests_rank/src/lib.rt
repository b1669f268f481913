//! Tests of ranks by expressions and of policies by their texts, by the library's public names alone.
#![tactic(auto)]

#[cfg(test)]
mod faults;
#[cfg(test)]
mod limits;
#[cfg(test)]
mod policies;
#[cfg(test)]
mod ranks;
#[cfg(test)]
mod texts;
