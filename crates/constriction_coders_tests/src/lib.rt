//! The tests of the coders, of stored weights, counts and bytes, and of laws that their callers
//! use.
//!
//! The libraries have no tests of their own, because a library with tests is proved twice. These
//! tests use the public interface alone. Those of the folder `tried` are run and not proved.
#![tactic(auto)]

#[cfg(test)]
mod callers;
#[cfg(test)]
mod checks;
#[cfg(test)]
mod counts;
#[cfg(test)]
mod known_models;
