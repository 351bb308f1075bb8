//! What threads share for a while.
ghost use Rattle.std.specs.Prelude.{◌≡◌};
ghost use Rattle.std.specs.Arc.{arc_value};

use std::sync::{Arc, Wait};
use std::thread;

/// What was shared, once nobody else has a share of it. It waits for that.
pub fn alone<T: Drop, R: Wait>(rt: &R, shared: Arc<T>) -> T
    ensures { result ≡ arc_value shared }
{
    let mut shared = shared;
    for _ in rt.forever() {
        shared = match Arc::try_unwrap(shared) {
            Ok(value) => return value,
            Err(shared) => shared,
        };
        thread::yield_now();
    }
    unreachable!()
}
