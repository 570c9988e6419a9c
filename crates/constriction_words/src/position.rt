//! Positions of sources and sinks, and seeks to a position.

ghost use Rattle.std.specs.Prelude.{◌≡◌, Result, OnOk, OnErr};

mod small_vec;
mod vec;

/// A source or a sink that has a position.
pub trait PosSeek {
    /// The type of positions. A position does not say which source it belongs to.
    type Position: Clone;

    // The position of a state.
    ghost position: { Self → Self.Position };
}

/// A source or a sink that reports its position.
pub trait Pos: PosSeek {
    /// The present position.
    fn pos(&self) -> Self::Position
        ensures { result ≡ Self.position self.now };
}

/// A source or a sink that can be moved to a position.
pub trait Seek: PosSeek {
    // A seek of the first state to the position may give this answer and leave the second state.
    ghost seek_gives: { Self → Self.Position → Result (Unit {0}) (Unit {0}) → Self → Type 0 };

    /// Moves to a position, or refuses and changes nothing. The implementer says which positions
    /// are refused, and what a move does to the words.
    fn seek(&mut self, pos: Self::Position) -> Result<(), ()>
        ensures moved { OnOk result (Self.position self.new ≡ pos) }
        ensures stays { OnErr result (self.new ≡ self.old) }
        ensures gives { seek_gives self.old pos result self.new };
}
