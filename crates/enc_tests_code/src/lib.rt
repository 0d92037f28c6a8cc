//! What the crates of assembled code and of the outside answer, each asked by its public calls: values from outside.
#![tactic(auto)]

#[cfg(test)]
mod assembly;
#[cfg(test)]
mod outside;
