//! Positions that are noted and sought, through the bounds.

ghost use Rattle.std.specs.Prelude.{◌<◌, ◌≤◌, MatchResult};

use crate::checks::same;
use constriction_words::{Pos, PosSeek, Seek};

/// A place on a line of ten steps.
#[derive(Drop, PartialEq)]
struct Place {
    at: usize,
}

impl PosSeek for Place {
    type Position = usize;

    ghost position = { λ place. place.at };
}

impl Pos for Place {
    fn pos(&self) -> usize {
        self.at
    }
}

impl Seek for Place {
    ghost seek_gives = { λ _ pos r _. MatchResult r (λ _. pos ≤ 10) (λ _. 10 < pos) };

    fn seek(&mut self, pos: usize) -> Result<(), ()> {
        if pos > 10 {
            return Err(());
        }
        self.at = pos;
        Ok(())
    }
}

fn sought_and_back<P: Pos + Seek>(place: &mut P, to: P::Position) -> Result<(), ()> {
    let from = place.pos();
    place.seek(to)?;
    place.seek(from)
}

#[test]
fn a_position_is_sought_back(rt: HostRuntime) {
    let mut place = Place { at: 3 };
    same(
        &rt,
        (
            (place.seek(11), place.pos()),
            (sought_and_back(&mut place, 10), place.pos()),
            (place.seek(10), place.pos()),
        ),
        ((Err(()), 3), (Ok(()), 3), (Ok(()), 10)),
    );
}
