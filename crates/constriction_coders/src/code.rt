//! What codes symbols.

/// A coder: it encodes, it decodes, or both.
pub trait Code {
    /// What the coder holds. Clauses speak of it; there is no value of this type.
    type Content;

    ghost held: { Self → Self.Content };
}
