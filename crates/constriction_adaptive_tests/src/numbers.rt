//! What callers who code numbers by their bits learn from contracts alone.

ghost use Rattle.std.specs.Prelude.{◌≡◌, IfOk};

use constriction_adaptive::numbers::numbers_come_back;
use constriction_adaptive::{EncoderFrontendError, HashedContexts};
use std::alloc::Global;

/// Encodes samples of 12 bits and decodes as many.
pub fn samples_back(alloc: Global, samples: &[u16]) -> Result<Vec<u16>, EncoderFrontendError>
    ensures { IfOk result (λ again. again.items ≡ samples.now) }
{
    let Ok(mut encoding) = HashedContexts::<3>::new(alloc) else {
        return Err(EncoderFrontendError::OutOfMemory);
    };
    let Ok(mut decoding) = HashedContexts::<3>::new(alloc) else {
        return Err(EncoderFrontendError::OutOfMemory);
    };
    numbers_come_back::<_, u16, 12>(alloc, &mut encoding, &mut decoding, samples)
}
