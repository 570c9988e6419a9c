//! What keeps an entry until its symbol is encoded.

ghost use Rattle.std.specs.Prelude.{◌≡◌, ℕ, ◌^◌, ◌+◌, ◌<◌, ◌≤◌};

/// A left cumulative and a weight.
pub(crate) type Entry = (u32, u32);

/// Keeps an entry.
pub(crate) trait StoredEntry: Drop {
    // The highest precision whose entries fit.
    ghost most: { ℕ };

    // The entry that is kept.
    ghost kept: { Self → ℕ × ℕ };

    /// Keeps an entry.
    fn store(entry: Entry) -> Self
        requires some { 0 < entry.1 }
        requires within { entry.0 + entry.1 ≤ 2 ^ most }
        ensures { Self.kept result ≡ entry };

    /// The entry that is kept.
    fn read(&self) -> Entry
        ensures { result ≡ Self.kept self.now };
}

/// The left cumulative is in the high half, the weight less one in the low half.
impl StoredEntry for u32 {
    ghost use Rattle.std.proofs.Common.{◌/◌, ◌%◌};

    ghost most = { 16 };

    ghost kept = { λ word. (word / 65536, word % 65536 + 1) };

    #[inline]
    fn store(entry: Entry) -> Self {
        entry.0 * 65536 + (entry.1 - 1)
    }

    #[inline]
    fn read(&self) -> Entry {
        (*self / 65536, *self % 65536 + 1)
    }
}

impl StoredEntry for Entry {
    ghost most = { 32 };

    ghost kept = { λ entry. entry };

    #[inline]
    fn store(entry: Entry) -> Self {
        entry
    }

    #[inline]
    fn read(&self) -> Entry {
        *self
    }
}
