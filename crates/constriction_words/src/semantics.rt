//! The order in which a source gives back what was written.

/// An order of reading.
pub trait Semantics: Default {}

/// Last in, first out.
#[derive(Debug, Default, Drop)]
pub struct Stack {}

/// First in, first out.
#[derive(Debug, Default, Drop)]
pub struct Queue {}

impl Semantics for Stack {}

impl Semantics for Queue {}
