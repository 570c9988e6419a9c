//! Mixers of a caller's own: of predictors of two types, and by the functions of `mixing`.

ghost use Rattle.std.specs.Prelude.{◌≡◌, [], ◌∷◌, ◌+◌, ◌*◌, ◌%◌, ◌<◌, ◌≤◌, ◌^◌, ℕ, IfOk, length, map};
ghost use Rattle.constriction_adaptive.specs.Bit.{bit_number};
ghost use Rattle.constriction_adaptive.specs.ByContext.{context_state};
ghost use Rattle.constriction_adaptive.specs.ByMixing.{mixture_of};
ghost use Rattle.constriction_adaptive.specs.Contexts.{even_weights, untouched};
ghost use Rattle.constriction_adaptive.specs.Mixing.{error_of, mixed, squash, strength, weights_after};
ghost use Rattle.constriction_adaptive.specs.lemmas.Bit.{next-same};

use constriction_adaptive::bytes::bytes_come_back;
use constriction_adaptive::mixing::{adjust, mix, squash, strength};
use constriction_adaptive::{AdaptiveBit, Bit, ByContext, ByMixing, Context, OrderOne, Predictor};
use std::alloc::{AllocError, Global};

/// The context of the last bits, of which there are `contexts`: a power of 2.
#[derive(Drop)]
pub struct LastBits {
    contexts: usize,
    recent: usize,
    ghost below: { recent < contexts },
    ghost few: { contexts ≤ 2 ^ 32 },
}

impl Context<Bit, 16> for LastBits {
    ghost State = { ℕ × ℕ };

    ghost state = { λ c. (c.contexts, c.recent) };

    ghost number = { λ s. s.1 };

    ghost contexts = { λ c. c.contexts };

    ghost next = { λ s bit. (s.0, (2 * s.1 + bit_number bit) % s.0) };

    fn index(&self) -> usize {
        self.recent
    }

    fn learn(&mut self, bit: &bool) {
        self.recent = (2 * self.recent + usize::from(*bit)) % self.contexts;
    }

    ghost next_law = { next-same (λ s bit. (s.0, (2 * s.1 + bit_number bit) % s.0)) };
}

pub type ByLastBits = ByContext<AdaptiveBit, LastBits, 16>;

/// Predicts a bit by the last ones.
pub fn by_last_bits(alloc: Global, contexts: usize) -> Result<ByLastBits, AllocError>
    requires some { 0 < contexts }
    requires few { contexts ≤ 2 ^ 32 }
    ensures { IfOk result (λ made. ⟦<ByLastBits as Predictor<16>>⟧.state made
        ≡ context_state (even_weights contexts) (contexts, 0)) }
{
    let recent = LastBits {
        contexts,
        recent: 0,
    };
    Ok(ByContext::new(AdaptiveBit::new_many(alloc, contexts)?, recent))
}

pub type AllThree = ByMixing<(ByLastBits, (ByLastBits, (OrderOne, ()))), 3>;

/// Predicts the bits of bytes by the last 12 and the last 20 bits, and by the byte before.
pub fn by_all_three(alloc: Global) -> Result<AllThree, AllocError>
    ensures { IfOk result (λ made. ⟦<AllThree as Predictor<16>>⟧.state made ≡ mixture_of (
      context_state (even_weights 4096) (4096, 0),
      (
        context_state (even_weights 1048576) (1048576, 0),
        (untouched 65536, tt),
      ),
    ) (32768 ∷ 32768 ∷ 32768 ∷ [])) }
{
    let by_few = by_last_bits(alloc, 4096)?;
    let by_many = by_last_bits(alloc, 1_048_576)?;
    let by_a_byte = OrderOne::new(alloc)?;
    Ok(ByMixing::new((by_few, (by_many, (by_a_byte, ()))), [32_768; 3]))
}

/// The bytes that come back from a message.
pub fn bytes_back(alloc: Global, bytes: &[u8]) -> Result<Vec<u8>, AllocError>
    ensures { IfOk result (λ again. again.items ≡ bytes.now) }
{
    let mut encoding = by_all_three(alloc)?;
    let mut decoding = by_all_three(alloc)?;
    bytes_come_back(alloc, &mut encoding, &mut decoding, bytes)
}

pub const TEXT: &[u8] =
    b"Row, row, row your boat, gently down the stream; merrily, merrily, merrily, merrily, life is but a dream.\n\
Row, row, row your boat, gently down the stream; if you see a crocodile, do not forget to scream.\n";

/// The weight of 0 by two others, and what each of them counts after a bit, by numbers alone.
pub fn mixed_by_hand(counts: &mut [u32], zeros: [u16; 2], bit: bool) -> u16
    requires { length counts.old ≡ 2 }
    ensures mixed { result ≡ squash (mixed counts.old (map strength zeros)) }
    ensures learned { counts.new
        ≡ weights_after bit (error_of bit result) (map strength zeros) counts.old }
{
    let strengths = [strength(zeros[0]), strength(zeros[1])];
    let zero = squash(mix(counts, &strengths));
    adjust(counts, &strengths, zero, bit);
    zero
}
