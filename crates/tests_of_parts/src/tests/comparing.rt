//! How the tests compare. An assertion costs seconds to prove, so they stand in few functions.

ghost use Rattle.std.specs.Prelude.{IsTrue};

use std::alloc::AllocGlobal;
use std::fmt::{Debug, Display};
use std::process::Abort;

/// Compares what was found with what was wanted.
pub(crate) fn expect<T: PartialEq + Debug + Drop>(rt: &impl Abort, found: T, wanted: T) {
    assert_eq!(rt; found, wanted);
}

/// The same for one case of several, or for one of several values.
pub(crate) fn expect_at<T: PartialEq + Debug + Drop>(
    rt: &impl Abort,
    found: T,
    wanted: T,
    case: impl Debug + Drop,
) {
    assert_eq!(rt; found, wanted, "at {case:?}");
}

/// Compares what a value prints with a text.
pub(crate) fn expect_printed(rt: &(impl Abort + AllocGlobal), value: &impl Display, text: &str) {
    let printed = value.to_string(rt.alloc()).expect(rt, "memory");
    expect(rt, printed.as_str(), text);
}

/// What `check!` calls, with the text of what is to hold.
pub(crate) fn check_text(rt: &impl Abort, holds: bool, text: &str)
    ensures { IsTrue holds }
{
    assert!(rt; holds, "{text}");
}

// Goes on where this holds, and else says what doesn't.
macro_rules! check {
    ($rt:expr; $holds:expr) => {
        crate::tests::comparing::check_text($rt, $holds, stringify!($holds))
    };
}

pub(crate) use check;
