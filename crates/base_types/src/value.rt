ghost use Rattle.std.specs.Prelude.{Some};
ghost use Rattle.base_types.specs.Texts.{value_text};

use std::fmt;

/// What a row holds.
#[derive(Clone, Copy, Debug, PartialEq, Eq, PartialOrd, Ord)]
pub enum Value {
    /// Nothing: the row was never put, or was deleted.
    Absent,
    Num(i64),
}

impl fmt::Display for Value {
    ghost output = { λ x. Some (value_text x) };

    fn fmt<W: fmt::Write>(&self, f: &mut fmt::Formatter<W>) -> fmt::Result {
        match self {
            Value::Absent => write!(f, "absent"),
            Value::Num(number) => write!(f, "{number}"),
        }
    }
}
