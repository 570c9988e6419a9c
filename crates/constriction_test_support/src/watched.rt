//! Symbols that count how often they are compared, hashed and cloned, and how many of them there
//! are.

ghost use Rattle.std.specs.Prelude.{◌≡◌, ◌==◌};
ghost use Rattle.std.specs.Cmp.{partial_order_from_own_ties};
ghost use Rattle.std.specs.Cmp.Rules.{comparing, hashing};
ghost use Rattle.std.specs.Hash as fed;
ghost use Rattle.std.specs.Ordering.{as_partial_cmp, nat_cmp, on};
ghost use Rattle.std.proofs.Common.{rules};

use std::alloc::{AllocError, Global};
use std::cell::Cell;
use std::cmp::Ordering;
use std::hash::{Hash, Hasher};
use std::iter;
use std::rc::Rc;

/// What was done to the symbols that share these counts, and how often.
#[derive(Drop)]
pub struct Counts {
    /// How often two symbols were compared, by `==` or for their order.
    pub compared: Cell<usize>,
    pub hashed: Cell<usize>,
    pub cloned: Cell<usize>,
    /// How often the left cumulative of a symbol's row was read, in a model that counts this.
    pub read: Cell<usize>,
}

/// Each symbol owns the counts too, so the number of owners says how many symbols there are.
pub type Tally = Rc<Counts>;

/// Counts that are all 0, and that no symbol owns yet.
pub fn tally(alloc: Global) -> Result<Tally, AllocError> {
    let counts = Counts {
        compared: Cell::new(0),
        hashed: Cell::new(0),
        cloned: Cell::new(0),
        read: Cell::new(0),
    };
    match Rc::new(alloc, counts) {
        Ok(tally) => Ok(tally),
        Err(_) => Err(AllocError),
    }
}

/// Raises the count by one.
pub fn count(counter: &Cell<usize>) {
    counter.set(counter.get().wrapping_add(1));
}

/// How often symbols were compared, how often one was cloned, and how many symbols there are.
pub fn tallied(tally: &Tally) -> (usize, usize, usize) {
    let alive = Rc::strong_count(tally).wrapping_sub(1);
    (tally.compared.get(), tally.cloned.get(), alive)
}

/// A symbol that counts what is done to it. A clone fails, as if memory were refused, if its number
/// is `u32::MAX`.
#[derive(Drop)]
pub struct Watched {
    pub number: u32,
    pub tally: Tally,
}

impl PartialEq for Watched {
    ghost eq = { λ a b. a.number == b.number };

    ghost laws = { Prim.search (comparing, rules) };

    fn eq(&self, other: &Watched) -> bool {
        count(&self.tally.compared);
        self.number == other.number
    }
}

impl Eq for Watched {
    ghost laws = { Prim.search (comparing, rules) };
}

impl PartialOrd for Watched {
    ghost partial_cmp = { as_partial_cmp (on (λ a. a.number) nat_cmp) };

    ghost laws = { partial_order_from_own_ties (Prim.search (comparing, rules))
        (Prim.search (comparing, rules)) };

    fn partial_cmp(&self, other: &Watched) -> Option<Ordering> {
        Some(self.cmp(other))
    }
}

impl Ord for Watched {
    ghost cmp = { on (λ a. a.number) nat_cmp };

    ghost total = { Prim.search (comparing, rules) };

    ghost matches_partial_cmp = { Prim.search (comparing, rules) };

    ghost matches_eq = { Prim.search (comparing, rules) };

    fn cmp(&self, other: &Watched) -> Ordering {
        count(&self.tally.compared);
        self.number.cmp(&other.number)
    }
}

impl Hash for Watched {
    ghost hash_input = { λ a. fed.u32 a.number };

    ghost respects_eq = { Prim.search (hashing, rules) };

    fn hash<H: Hasher>(&self, state: &mut H) {
        count(&self.tally.hashed);
        state.write_u32(self.number);
    }
}

impl Clone for Watched {
    ghost is_clone = { λ x y. y.number ≡ x.number };

    fn clone(&self) -> Result<Watched, AllocError> {
        count(&self.tally.cloned);
        if self.number == u32::MAX {
            return Err(AllocError);
        }
        Ok(Watched {
            number: self.number,
            tally: self.tally.clone()?,
        })
    }
}

/// Symbols of the numbers `0..count`, and after them a symbol of the number `last`.
pub fn symbols(
    alloc: Global,
    tally: &Tally,
    count: u32,
    last: u32,
) -> Result<Vec<Watched>, AllocError> {
    let mut symbols = Vec::new(alloc);
    for number in (0..count).chain(iter::once(last)) {
        let tally = tally.clone()?;
        symbols.push(Watched { number, tally })?;
    }
    Ok(symbols)
}
