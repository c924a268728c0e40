// Which of the two sides.
ghost use Rattle.std.specs.Prelude.{Some};
ghost use Rattle.runs.specs.Names.{name_of};

use std::fmt;

// The two sides: the second draws key 0 beforehand, the first draws key 1.
#[derive(Clone, Copy, Debug, PartialEq, Eq, Hash)]
pub enum Who {
    First,
    Second,
}

// What a side is called.
impl fmt::Display for Who {
    ghost output = { λ who. Some (name_of who) };

    fn fmt<W: fmt::Write>(&self, f: &mut fmt::Formatter<W>) -> fmt::Result {
        match self {
            Who::First => write!(f, "first"),
            Who::Second => write!(f, "second"),
        }
    }
}
