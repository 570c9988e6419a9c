//! Plain bits on a stack coder: a number of `k` bits is a symbol of weight 1 over precision `k`.

ghost use Rattle.std.specs.Prelude.{◌≡◌, ◌%◌, ◌^◌, ◌<◌, IfOk, OnErr, OnOk};
ghost use Rattle.constriction_coders.specs.Steps.{IsOnTop, NeedsWord, ReadsAtMostOne, WritesAtMostOne};
ghost use Rattle.constriction_model.specs.Precision.{IsPrecision};

use crate::stack::ans_coder::{AnsCoder, refilled, with_room};
use constriction_backends::{StackSource, WordStack};

impl<Backend: WordStack<u32>> AnsCoder<Backend> {
    ghost use Rattle.constriction_coders.specs.AnsCoder.{held_by};

    /// Puts a number of `count` bits on top. [`take_bits`](Self::take_bits) takes it.
    ///
    /// The error is that of a write. It leaves the state and the words.
    #[inline]
    pub fn put_bits(&mut self, count: u32, bits: u32) -> Result<(), Backend::WriteError>
        requires count { IsPrecision 32 count }
        requires fits { bits < 2 ^ count }
        ensures ok { OnOk result (IsOnTop count bits 1 (held_by self.new) (held_by self.old)) }
        ensures wrote { WritesAtMostOne Backend.write_gives self.old.words result self.new.words }
        ensures same { OnErr result (held_by self.new ≡ held_by self.old) }
    {
        match with_room(&mut self.words, self.state, count as usize, 1) {
            Ok(kept) => {
                self.state = (kept << count) + bits as u64;
                Ok(())
            }
            Err(error) => Err(error),
        }
    }
}

impl<Backend: StackSource<u32>> AnsCoder<Backend> {
    ghost use Rattle.constriction_coders.specs.AnsCoder.{held_by};

    /// Takes a number of `count` bits from the top, whatever was put there. A coder that holds
    /// nothing gives 0.
    ///
    /// The error is that of a read. It leaves the state and the words.
    #[inline]
    pub fn take_bits(&mut self, count: u32) -> Result<u32, Backend::ReadError>
        requires { IsPrecision 32 count }
        ensures ok { IfOk result (λ bits.
            IsOnTop count bits 1 (held_by self.old) (held_by self.new)) }
        ensures needs { OnErr result
            (NeedsWord count (self.old.state % 2 ^ count) 1 (held_by self.old)) }
        ensures read { ReadsAtMostOne Backend.read_gives self.old.words result self.new.words }
        ensures same { OnErr result (held_by self.new ≡ held_by self.old) }
    {
        let bits = (self.state % (1u64 << count)) as u32;
        match refilled(&mut self.words, self.state >> count) {
            Ok(state) => {
                self.state = state;
                Ok(bits)
            }
            Err(error) => Err(error),
        }
    }
}
