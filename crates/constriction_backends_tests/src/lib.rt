//! The tests of words, and of sources, sinks, buffers and cursors.
//!
//! The tests of words call through a bound, and at a word type of a caller's own.
//!
//! The libraries have no tests of their own, because a library with tests is proved twice. These
//! tests use the public interface alone. Those of the folder `tried` are run and not proved.
#![tactic(auto)]

#[cfg(test)]
mod adapters;
#[cfg(test)]
mod checks;
#[cfg(test)]
mod cursors;
#[cfg(test)]
mod lent_backends;
#[cfg(test)]
mod numbers;
#[cfg(test)]
mod positions;
#[cfg(test)]
mod reversals;
#[cfg(test)]
mod stacks;
#[cfg(test)]
mod traits;
#[cfg(test)]
mod weights;
#[cfg(test)]
mod whole_numbers;
