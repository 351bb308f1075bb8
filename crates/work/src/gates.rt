//! What is told of each exchange as it is carried out.

/// It is told of each exchange, by its place in the list from 0. Several workers call it from threads of
/// their own, and exchanges that share no node may be under way at once.
pub trait Gate {
    /// The exchange is about to be carried out.
    fn enter(&self, i: u32);

    /// The exchange is carried out. Where there are several workers, one that waited for it may be under way
    /// by now. An exchange that met lack of memory isn't left.
    fn leave(&self, i: u32);
}

/// The gate that does nothing.
#[derive(Clone, Copy, Debug)]
pub struct FreeGate;

impl Gate for FreeGate {
    fn enter(&self, _i: u32) {}

    fn leave(&self, _i: u32) {}
}

impl<G: Gate> Gate for &G {
    fn enter(&self, i: u32) {
        (**self).enter(i);
    }

    fn leave(&self, i: u32) {
        (**self).leave(i);
    }
}
