//! The line of a fault, which takes no memory.

ghost use Rattle.std.specs.Prelude.{◌≡◌, ◌+◌, ◌<◌, ◌++◌, length};
ghost use Rattle.bench_types.specs.calls.FaultLine.{fault_line};
ghost use Rattle.bench_types.specs.calls.Field.{field_text};

use arrayvec::ArrayString;
use bench_types::{Fault, Field, Filling, TableName};
use itoa::Buffer;

/// The most bytes of a fault's line with the line's end. The longest line has 48.
pub(crate) const MOST_LINE: usize = 96;

/// The line of a fault, with room for the line's end.
pub(crate) type FaultLine = ArrayString<MOST_LINE>;

/// The line, made without memory.
pub(crate) fn line_of(fault: &Fault) -> FaultLine
    ensures line { result.bytes ≡ fault_line fault.now }
    ensures room { length result.bytes < MOST_LINE }
{
    let (head, filling, tail) = fault.parts();
    match filling {
        Filling::Nothing => joined(head, "", tail),
        Filling::Number(number) => joined(head, Buffer::new().format(number), tail),
        Filling::Field(field) => with_field(head, field, tail),
        Filling::Table(table) => joined(head, table.name(), tail),
    }
}

// The three texts, one behind the other.
fn joined(head: &str, middle: &str, tail: &str) -> FaultLine
    requires { length head.now + length middle.now + length tail.now < MOST_LINE }
    ensures line { result.bytes ≡ head.now ++ (middle.now ++ tail.now) }
    ensures room { length result.bytes < MOST_LINE }
{
    let mut line = FaultLine::new();
    line.push_str(head);
    line.push_str(middle);
    line.push_str(tail);
    line
}

// A field between two texts.
fn with_field(head: &str, field: Field, tail: &str) -> FaultLine
    requires { length head.now + length tail.now < 60 }
    ensures line { result.bytes ≡ head.now ++ (field_text field ++ tail.now) }
    ensures room { length result.bytes < MOST_LINE }
{
    match field.table() {
        TableName::Top => joined(head, field.name(), tail),
        table => {
            let mut line = FaultLine::new();
            line.push_str(head);
            line.push_str(table.name());
            line.push_str(".");
            line.push_str(field.name());
            line.push_str(tail);
            line
        }
    }
}
