//! Who looks on while a transfer is carried out.
use bench::Steppable;

/// Looks at a bench whose transfer is carried out, to write down what was sent, say.
pub trait Watch<B: Steppable> {
    /// Looks at the bench before the next tick passes.
    fn before_tick(&mut self, bench: &B);
}

/// Nobody looks on.
#[derive(Clone, Copy)]
pub struct Unwatched;

impl<B: Steppable> Watch<B> for Unwatched {
    fn before_tick(&mut self, _bench: &B) {}
}
