//! The tests of entropy models, of the counted search and of lookup models: callers that rely on
//! contracts alone, types and models of a caller's own, how many questions a search asks, and time.
//!
//! The libraries have no tests of their own, because a library with tests is proved twice. These
//! tests use the public interface alone. Those of the folder `tried` are run and not proved.
#![tactic(auto)]

#[cfg(test)]
mod checks;
#[cfg(test)]
mod compared;
#[cfg(test)]
mod distinct_symbols;
#[cfg(test)]
mod generic_callers;
#[cfg(test)]
mod laws;
#[cfg(test)]
mod model_checks;
#[cfg(test)]
mod own_model;
#[cfg(test)]
mod own_number;
#[cfg(test)]
mod own_searching_model;
#[cfg(test)]
mod reweighted;
#[cfg(test)]
mod search;
#[cfg(test)]
mod tables;
#[cfg(test)]
mod watched_model;
#[cfg(test)]
mod wide_slots;
