//! The tests of models that are learned: callers whose results follow from contracts alone, models
//! and predictors of a caller's own, and messages that come back.
//!
//! The libraries have no tests of their own, because a library with tests is proved twice. These
//! tests use the public interface alone. Those of the folder `tried` are run and not proved.
#![tactic(auto)]

#[cfg(test)]
mod by_context;
#[cfg(test)]
mod checks;
#[cfg(test)]
mod learned;
#[cfg(test)]
mod mixed;
#[cfg(test)]
mod numbers;
#[cfg(test)]
mod own_mixer;
#[cfg(test)]
mod samples;
