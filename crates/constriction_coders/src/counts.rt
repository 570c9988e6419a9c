//! Weights in proportion to counts.

ghost use Rattle.std.specs.Prelude.{◌≡◌, ◌↔◌, ◌+◌, ◌*◌, ◌/◌, ◌^◌, ◌<◌, ◌≤◌, ℕ, All, Err, IfOk, List, OnErr, OnOk, filter, length, nat_lt, slice_index, sum, take};
ghost use Rattle.std.specs.Prelude.{if◌then◌else◌};
ghost use Rattle.std.specs.Vec.{vec_capacity};
ghost use Rattle.constriction_model.specs.Acceptance.{IsAccepted};
ghost use Rattle.constriction_coders.specs.Counts.{AreWeightsOf, occurring};

use std::alloc::Global;
use thiserror::Error;

/// Why counts have no weights.
#[derive(Debug, PartialEq, Eq, Drop, Error)]
pub enum CountsError {
    #[error("No symbol occurs.")]
    NothingOccurs,
    #[error("More symbols occur than there are quantiles.")]
    TooManySymbols,
    /// Only one count is above 0, at 32 bits: its weight would be `2^32`, which is no word.
    #[error("The weight of the only symbol that occurs is no word.")]
    WeightIsNoWord,
    #[error("Memory for the weights was refused.")]
    OutOfMemory,
}

/// The sum of counts, and how many of them are not 0.
fn total_and_occurring(counts: &[u64]) -> (u128, u64)
    ensures total { result.0 ≡ sum counts.now }
    ensures bounded { result.0 < 2 ^ 127 }
    ensures occurring { result.1 ≡ occurring counts.now }
    ensures least { result.1 ≤ result.0 }
{
    let mut total = 0u128;
    let mut occurring = 0u64;
    for count in counts {
        total += *count as u128;
        if *count > 0 {
            occurring += 1;
        }
    }
    (total, occurring)
}

/// The weight of a count, and the remainder of its share.
#[tactic(auto, using(crate::proofs::CountsLemmas::share_fits, crate::proofs::CountsLemmas::quotient_fits))]
fn weight_of(count: u64, shared: u64, carried: u128, total: u128) -> (u32, u128)
    requires within { count ≤ total }
    requires bounded { total < 2 ^ 127 }
    requires room { shared + 1 < 2 ^ 32 }
    requires less { carried < total }
    ensures some { 0 < count → 0 < result.0 }
    ensures none { count ≡ 0 → result.0 ≡ 0 }
    ensures less { result.1 < total }
    ensures given { result.0 * total + result.1
        ≡ (if nat_lt 0 count then 1 else 0) * total + count * shared + carried }
{
    if count == 0 {
        return (0, carried);
    }
    let share = count as u128 * shared as u128 + carried;
    // A division of numbers of 128 bits takes several times as long.
    if share <= u64::MAX as u128 && total <= u64::MAX as u128 {
        let (share, total) = (share as u64, total as u64);
        return ((1 + share / total) as u32, (share % total) as u128);
    }
    ((1 + share / total) as u32, share % total)
}

/// Gives each symbol that occurs one quantile and its share of the others, in a list with room for
/// them. The remainder of a share is carried to the next symbol.
fn share_out(weights: &mut Vec<u32>, counts: &[u64], shared: u64, total: u128)
    requires places { length counts.now ≤ vec_capacity weights.old }
    requires total { total ≡ sum counts.now }
    requires some { 0 < total }
    requires bounded { total < 2 ^ 127 }
    requires room { shared + 1 < 2 ^ 32 }
    ensures as_many { length weights.new.items ≡ length counts.now }
    ensures fit { All (λ w. w < 2 ^ 32) weights.new.items }
    ensures before { (place : ℕ) → sum (take place weights.new.items) ≡ occurring
        (take place counts.now) + sum (take place counts.now) * shared / sum counts.now }
    ensures some { (place : ℕ) → 0 < slice_index counts.now place
        → 0 < slice_index weights.new.items place }
    ensures none { (place : ℕ) → slice_index counts.now place ≡ 0
        → slice_index weights.new.items place ≡ 0 }
{
    weights.clear();
    let mut carried = 0u128;
    for count in counts {
        let (weight, left) = weight_of(*count, shared, carried, total);
        weights.push_reserved(weight);
        carried = left;
    }
}

/// Weights over `2^PRECISION` in proportion to counts, one for each count, in place of what a list
/// has.
///
/// The weight of a symbol that occurs differs by less than 1 from 1 plus its share of the quantiles
/// that are left when each symbol that occurs has one. The counts may have any sum. There are two
/// passes over the counts, with a division for each count. Memory is asked for only if the list has
/// no room for as many weights as counts. If it fails, the list keeps what it has.
pub fn weigh<const PRECISION: usize>(
    counts: &[u64],
    weights: &mut Vec<u32>,
) -> Result<(), CountsError>
    requires { PRECISION ≤ 32 }
    ensures ok { OnOk result (AreWeightsOf PRECISION counts.now weights.new.items) }
    ensures total { OnOk result (sum weights.new.items ≡ 2 ^ PRECISION) }
    ensures occur { OnOk result ((place : ℕ)
        → (0 < slice_index weights.new.items place) ↔ (0 < slice_index counts.now place)) }
    ensures accepted { OnOk result
        (IsAccepted 32 PRECISION (filter (λ w. nat_lt 0 w) weights.new.items)) }
    ensures nothing { (result ≡ Err CountsError.NothingOccurs) ↔ (occurring counts.now ≡ 0) }
    ensures too_many { (result ≡ Err CountsError.TooManySymbols)
        ↔ (2 ^ PRECISION < occurring counts.now) }
    ensures no_word { (result ≡ Err CountsError.WeightIsNoWord)
        ↔ ((PRECISION ≡ 32) × (occurring counts.now ≡ 1)) }
    ensures memory { result ≡ Err CountsError.OutOfMemory
        → vec_capacity weights.old < length counts.now }
    ensures err { OnErr result (weights.new.items ≡ weights.old.items) }
{
    let size = 1u64 << PRECISION;
    let (total, occurring) = total_and_occurring(counts);
    if occurring == 0 {
        return Err(CountsError::NothingOccurs);
    }
    if occurring > size {
        return Err(CountsError::TooManySymbols);
    }
    let shared = size - occurring;
    if shared >= u32::MAX as u64 {
        return Err(CountsError::WeightIsNoWord);
    }
    if weights
        .reserve_exact(counts.len().saturating_sub(weights.len()))
        .is_err()
    {
        return Err(CountsError::OutOfMemory);
    }
    share_out(weights, counts, shared, total);
    Ok(())
}

/// As [`weigh`], in a list of its own. Memory is asked for once.
pub fn weights_of<const PRECISION: usize>(
    alloc: Global,
    counts: &[u64],
) -> Result<Vec<u32>, CountsError>
    requires { PRECISION ≤ 32 }
    ensures ok { IfOk result (λ weights. AreWeightsOf PRECISION counts.now weights.items) }
    ensures total { IfOk result (λ weights. sum weights.items ≡ 2 ^ PRECISION) }
    ensures occur { IfOk result (λ weights. (place : ℕ)
        → (0 < slice_index weights.items place) ↔ (0 < slice_index counts.now place)) }
    ensures accepted { IfOk result (λ weights.
        IsAccepted 32 PRECISION (filter (λ w. nat_lt 0 w) weights.items)) }
    ensures nothing { (result ≡ Err CountsError.NothingOccurs) ↔ (occurring counts.now ≡ 0) }
    ensures too_many { (result ≡ Err CountsError.TooManySymbols)
        ↔ (2 ^ PRECISION < occurring counts.now) }
    ensures no_word { (result ≡ Err CountsError.WeightIsNoWord)
        ↔ ((PRECISION ≡ 32) × (occurring counts.now ≡ 1)) }
{
    let mut weights = Vec::new(alloc);
    weigh::<PRECISION>(counts, &mut weights)?;
    Ok(weights)
}

/// Counts have one list of weights.
pub fn counts_have_one_list<const PRECISION: usize>()
    ensures { (counts weights others : List ℕ) → AreWeightsOf PRECISION counts weights
        → AreWeightsOf PRECISION counts others → weights ≡ others }
{}
