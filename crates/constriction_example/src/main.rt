//! A stack coder encodes and decodes a message.
#![tactic(auto)]

use constriction::stream::model::ContiguousCategoricalEntropyModel;
use constriction_coders::Decode;
use constriction_coders::stack::AnsCoder;

/// Weights that add up to `2^12`.
type Model = ContiguousCategoricalEntropyModel<u32, Vec<u32>, 12>;

fn main(host: HostRuntime) -> anyhow::Result<()> {
    let alloc = host.alloc();
    let weights = [2600, 1000, 400, 96];
    let model = Model::from_nonzero_fixed_point_probabilities(alloc, weights, false)?;
    let mut coder = AnsCoder::new(alloc);
    coder.encode_iid_slice_reverse(&[0, 1, 0, 0, 2, 0, 1, 0, 0, 0, 3, 0], &model)?;
    let words = coder.into_compressed()?;
    println!(host; "encoded: {words:?}")?;
    let Ok(mut coder) = AnsCoder::from_compressed(words) else {
        anyhow::bail!("the last word is 0");
    };
    println!(host; "decoded: {:?}", coder.decode_iid_vec(alloc, 12, &model)?)?;
    Ok(())
}
