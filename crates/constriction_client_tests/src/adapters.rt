//! The words of an iterator and of a stack, read as pairs.

ghost use Rattle.std.specs.Prelude.{◌≡◌, ◌≤◌, ◌++◌, List, length, take, Err, IfOk, vec_capacity};
ghost use Rattle.constriction_client.specs.Quantiles.{ArePairs};

use crate::checks::{holds, same, small, vec_of};
use constriction::stream::model::{ContiguousCategoricalEntropyModel, EntropyModel};
use constriction_backends::InfallibleIteratorReadWords;
use constriction_client::{ReadFault, read_symbols};
use constriction_words::{CoderError, Queue, Stack};
use std::convert::Infallible;

type Small = ContiguousCategoricalEntropyModel<u8, Vec<u8>, 6>;

type Read = Result<usize, CoderError<ReadFault, Infallible>>;

/// Reads the first `count` words of a slice as pairs, or all words if there are fewer. The source
/// is over the slice's iterator. The model clones no symbol, so memory is refused only if the list
/// of pairs is full.
fn read_slice(model: &Small, words: &[u8], count: usize, out: &mut Vec<(usize, u8)>) -> Read
    ensures pairs { IfOk result (λ n. (pairs : List _) × ArePairs (λ s t. t ≡ s)
        (⟦<ContiguousCategoricalEntropyModel<u8, Vec<u8>, 6> as EntropyModel<6>>⟧.rows model.now)
        (λ word. word) (take count words.now) pairs × (length pairs ≡ n)
        × (out.new.items ≡ out.old.items ++ pairs)) }
    ensures memory { result ≡ Err (CoderError.Frontend ReadFault.OutOfMemory)
        → vec_capacity out.new ≤ length out.new.items }
{
    let mut source = InfallibleIteratorReadWords::new(words.iter().copied());
    read_symbols::<Queue, _, _, 6>(model, &mut source, count, out)
}

/// Reads a pair from a stack.
fn read_top(model: &Small, words: &mut Vec<u8>, out: &mut Vec<(usize, u8)>) -> Read {
    read_symbols::<Stack, _, _, 6>(model, words, 1, out)
}

/// The words under the ones that are read stay.
#[test]
fn a_stack_is_read_from_its_end(rt: HostRuntime) {
    let model = small(&rt, rt.alloc());
    let mut words = vec_of(&rt, rt.alloc(), &[2, 63]);
    let mut out = Vec::new(rt.alloc());
    same(&rt, read_top(&model, &mut words, &mut out), Ok(1));
    holds(&rt, &out, &[(3, 41)]);
    holds(&rt, &words, &[2]);
}

/// Memory for pairs is requested as words come, whatever the count is.
#[test]
fn five_thousand_words_are_read_as_pairs(rt: HostRuntime) {
    let model = small(&rt, rt.alloc());
    let words = vec![in rt.alloc(); 63u8; 5000].expect(&rt, "memory");
    let mut out = Vec::new(rt.alloc());
    let read = read_slice(&model, &words, 1 << 60, &mut out);
    same(&rt, (read, out.len()), (Ok(5000), 5000));
}
