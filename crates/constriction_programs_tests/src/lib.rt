//! The tests of what the programs call: lines, whole inputs and packed files.
//!
//! The answers to lines are tested by the input and output of `constriction_rows` and
//! `constriction_coder_program`.
//!
//! The libraries have no tests of their own, because a library with tests is proved twice. These
//! tests use the public interface alone. Those of the folder `tried` are run and not proved.
#![tactic(auto)]

#[cfg(test)]
mod checks;
#[cfg(test)]
mod contexts;
#[cfg(test)]
mod frames;
#[cfg(test)]
mod known;
#[cfg(test)]
mod longest_input;
#[cfg(test)]
mod packed_files;
#[cfg(test)]
mod packing;
#[cfg(test)]
mod runs;
