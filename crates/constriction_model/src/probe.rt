//! Lists of cumulatives that answer questions, and count them.

ghost use Rattle.std.specs.Prelude.{◌≡◌, ◌↔◌, ◌+◌, ◌<◌, ◌≤◌, ℕ, List, IsTrue, length, slice_index};

/// A list of cumulatives that is asked about one of them at a time, and counts the questions.
///
/// [`row_of_quantile`](crate::row_of_quantile) searches it. A caller's own list may be a probe.
/// Only [`at_most`](Self::at_most) tells of a cumulative, and the other calls take `&self`, so no
/// question goes uncounted.
pub trait Probe {
    /// The type that the cumulatives are compared with.
    type Word: Copy;

    // The number of a word.
    ghost number: { Self.Word → ℕ };

    // The cumulatives, in order.
    ghost cumulatives: { Self → List ℕ };

    // How many questions were asked.
    ghost questions: { Self → ℕ };

    /// How many cumulatives there are.
    fn len(&self) -> usize
        ensures { result ≡ length (cumulatives self.now) };

    /// How many questions were asked.
    fn asked(&self) -> usize
        ensures { result ≡ questions self.now };

    /// Whether the cumulative at the index is at most `q`. This is one question.
    fn at_most(&mut self, index: usize, q: Self::Word) -> bool
        requires in_bounds { index < length (cumulatives self.old) }
        requires room { questions self.old < usize.MAX }
        ensures answer { IsTrue result ↔ (slice_index (cumulatives self.old) index ≤ number q) }
        ensures same { cumulatives self.new ≡ cumulatives self.old }
        ensures counted { questions self.new ≡ questions self.old + 1 };
}
