//! Plain bits come back from a stack coder.

ghost use Rattle.std.specs.Prelude.{◌≡◌, ℕ};
ghost use Rattle.constriction_coders.specs.Steps.{Content, IsOnTop};

/// What [`take_bits`](crate::stack::AnsCoder::take_bits) takes after
/// [`put_bits`](crate::stack::AnsCoder::put_bits) is the number that was put, and what was under it
/// is left.
pub fn plain_bits_come_back()
    ensures { (count bits answer : ℕ) (full rest under : Content) → IsOnTop count bits 1 full rest
        → IsOnTop count answer 1 full under → (answer ≡ bits) × (under ≡ rest) }
{}
