//! Calls of a cursor, and the replies to them.

/// A call of a cursor.
#[derive(Debug, Drop, PartialEq, Eq)]
pub enum CursorCall<Word> {
    /// Reads the word before the position, and moves back over it.
    StackRead,
    /// Reads the word at the position, and moves forward over it.
    QueueRead,
    /// Overwrites the word at the position, and moves forward over it.
    Write(Word),
    /// How many words a stack has left: those before the position.
    StackRemaining,
    /// How many words a queue has left: those from the position on.
    QueueRemaining,
    /// How many more words can be written.
    SpaceLeft,
    /// Whether a stack has no word left.
    StackExhausted,
    /// Whether a queue has no word left.
    QueueExhausted,
    /// Whether no more word can be written.
    Full,
    /// The position.
    Position,
    /// Moves to a position.
    Seek(usize),
}

/// The reply to a call of a cursor.
#[derive(Debug, Drop, PartialEq, Eq)]
pub enum CursorReply<Word> {
    /// The word that was read, or `None` if no word was left.
    Word(Option<Word>),
    /// The word was written.
    Written,
    /// There was no word at the position to overwrite, and nothing changed.
    OutOfSpace,
    /// A number of words, or the position.
    Count(usize),
    /// The answer to `StackExhausted`, `QueueExhausted` or `Full`.
    Flag(bool),
    /// The position is the one that was asked for.
    Moved,
    /// The position that was asked for is past the words, and nothing changed.
    NotMoved,
}
