//! What a worker has put on its deque, as the proofs see it.
ghost use Rattle.std.specs.Prelude.{ℕ, List};
ghost use Rattle.std.specs.Borrow.{ftrue};

use std::marker::Model;

// The indices, in order. No value of it is made.
pub struct PushLog {
    pub ghost indices: { List ℕ },
}

impl Model for PushLog {
    ghost also_owns = { λ _. ftrue };
}
