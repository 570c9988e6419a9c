//! The tests of items written and read back, chains of conversions, queries, runs of calls on a
//! cursor, and the theorem's calls; and callers whose results follow from contracts alone.
//!
//! The libraries have no tests of their own, because a library with tests is proved twice. These
//! tests use the public interface alone. Those of the folder `tried` are run and not proved.
#![tactic(auto)]

#[cfg(test)]
mod adapters;
#[cfg(test)]
mod checks;
#[cfg(test)]
mod cursor_runs;
#[cfg(test)]
mod known;
#[cfg(test)]
mod known_models;
#[cfg(test)]
mod known_theorem;
#[cfg(test)]
mod own_ends;
