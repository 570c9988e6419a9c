//! The bytes before a bit, and the byte that they foretell.

ghost use Rattle.std.specs.Prelude.{◌≡◌, ◌<◌, ◌≤◌, ◌^◌, IfOk, false, length};
ghost use Rattle.constriction_adaptive.specs.Past.{
  PastState,
  followed,
  with_byte,
  longer,
  no_followers,
  past_after,
  past_begun,
  told_after,
};

use crate::mixer::inputs::{recent_bytes, spread_over};
use std::alloc::{AllocError, Global};
use std::marker::Model;

/// The bytes before a bit, and the byte that came last after the same bytes.
#[derive(Drop)]
pub(crate) struct Past {
    followers: Vec<u8>,
    reach: u32,
    history: u64,
    half: u32,
    path: u32,
    told: u32,
    at: u32,
}

impl Model for Past {
    ghost Value = { PastState };

    ghost view = { λ p. record {
      followers = p.followers.items;
      reach = p.reach;
      history =
          p.history;
      half = p.half;
      path = p.path;
      at = p.at;
      told = p.told;
    } };

    ghost invariant = { λ p. (0 < length p.followers.items) × (length p.followers.items < 2 ^ 32)
        × (0 < p.reach) × (p.reach ≤ 8) × (p.half < 32) × (p.path < 16) × (p.told < 16)
        × (p.at < length p.followers.items) };
}

/// How many bytes in a row were foretold.
#[inline]
fn told_more(told: u32, right: bool) -> u32
    requires { told < 16 }
    ensures value { result ≡ told_after right told }
    ensures below { result < 16 }
{
    if right { (told + 1).min(15) } else { 0 }
}

/// The last eight bytes with one byte more.
#[inline]
fn history_with(history: u64, byte: u8) -> u64
    ensures { result ≡ with_byte byte history }
{
    history % 72057594037927936 * 256 + byte as u64
}

/// The followers before any byte came.
fn unfollowed(alloc: Global, count: usize) -> Result<Vec<u8>, AllocError>
    ensures items { IfOk result (λ followers. followers.items ≡ no_followers count) }
    ensures many { IfOk result (λ followers. length followers.items ≡ count) }
{
    vec![in alloc; 0u8; count]
}

impl Past {
    /// Nothing came. So many followers are kept, each found by as many bytes as `reach`.
    pub(crate) fn new(alloc: Global, followers: usize, reach: u32) -> Result<Self, AllocError>
        requires some { 0 < followers }
        requires few { followers < 2 ^ 32 }
        requires near { 0 < reach }
        requires far { reach ≤ 8 }
        ensures { IfOk result (λ past. past ≡ past_begun followers reach) }
    {
        let followers = unfollowed(alloc, followers)?;
        let at = spread_over(followers.len() as u32, recent_bytes(reach, 0));
        Ok(Past {
            followers,
            reach,
            history: 0,
            half: 1,
            path: 1,
            told: 0,
            at,
        })
    }

    /// The same past.
    pub(crate) fn copied(&self, alloc: Global) -> Result<Self, AllocError>
        ensures { IfOk result (λ past. past ≡ self.now) }
    {
        let followers = Vec::from_slice(alloc, &self.followers)?;
        Ok(Past {
            followers,
            reach: self.reach,
            history: self.history,
            half: self.half,
            path: self.path,
            told: self.told,
            at: self.at,
        })
    }

    /// What contexts see.
    #[inline]
    pub(crate) fn seen(&self) -> (u64, u32, u32)
        ensures history { result.0 ≡ self.now.history }
        ensures half { result.1 ≡ self.now.half }
        ensures half_below { result.1 < 32 }
        ensures followed { result.2 ≡ followed self.now }
        ensures followed_below { result.2 < 4096 }
    {
        (
            self.history,
            self.half,
            self.told * 256 + self.followers[self.at as usize] as u32,
        )
    }

    /// The bits of this half of a byte after a 1.
    #[inline]
    pub(crate) fn path(&self) -> usize
        ensures path { result ≡ self.now.path }
        ensures below { result < 16 }
    {
        self.path as usize
    }

    /// How many bytes in a row were foretold.
    #[inline]
    pub(crate) fn told(&self) -> usize
        ensures told { result ≡ self.now.told }
        ensures below { result < 16 }
    {
        self.told as usize
    }

    /// A bit came. Answers whether half a byte is whole.
    #[inline]
    pub(crate) fn advance(&mut self, bit: bool) -> bool
        ensures after { self.new ≡ past_after bit self.old }
        ensures same { result ≡ false → self.new ≡ record self.old { path = longer bit self.old } }
    {
        let path = 2 * self.path + u32::from(bit);
        if path < 16 {
            self.path = path;
            return false;
        }
        self.path = 1;
        if self.half < 16 {
            self.half = path;
            return true;
        }
        let byte = (self.half % 16 * 16 + path % 16) as u8;
        self.half = 1;
        let place = self.at as usize;
        self.told = told_more(self.told, self.followers[place] == byte);
        self.followers[place] = byte;
        self.history = history_with(self.history, byte);
        self.at = spread_over(
            self.followers.len() as u32,
            recent_bytes(self.reach, self.history),
        );
        true
    }
}
