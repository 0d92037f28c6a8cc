//! What the crates of edit lists' rules and of watchers answer, asked by their public calls: a heap at its limit, and a
//! watcher of one's own.
#![tactic(auto)]

#[cfg(test)]
mod profiler;
#[cfg(test)]
mod rules;
