//! Symbols of an iterator, each with the same model.

ghost use Rattle.std.specs.Prelude.{◌≡◌, MatchOption, Some, None};

/// The symbols of an iterator, each with this model.
#[derive(Drop)]
pub(crate) struct WithModel<'m, I, E> {
    pub(crate) symbols: I,
    pub(crate) model: &'m E,
}

impl<'m, I: Iterator, E> Iterator for WithModel<'m, I, E> {
    type Item = (I::Item, &'m E);

    ghost can_next = { λ s. I.can_next s.symbols };

    ghost next_gives = { λ s r t. (t.model ≡ s.model)
        × MatchOption r (I.next_gives s.symbols None t.symbols) (λ pair.
        I.next_gives s.symbols (Some pair.0) t.symbols × (pair.1 ≡ s.model)) };

    ghost remaining = { λ s. I.remaining s.symbols };

    #[inline]
    fn next(&mut self) -> Option<(I::Item, &'m E)> {
        match self.symbols.next() {
            Some(symbol) => Some((symbol, self.model)),
            None => None,
        }
    }
}
