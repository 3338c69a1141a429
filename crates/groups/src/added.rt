// What becomes of a contribution.
ghost use Rattle.std.specs.Prelude.{Some};
ghost use Rattle.groups.specs.Told.{told, turned_away};

use std::error::Error;
use std::fmt;

// It came in.
#[derive(Clone, Copy, Debug, PartialEq, Eq)]
pub enum Added {
    // its group was there, and has grown by it
    Grown,
    // its group is new
    Begun,
}

// Its group was not there, and all places have one: nothing has changed.
#[derive(Clone, Copy, Debug, PartialEq, Eq)]
pub struct NoRoom;

impl fmt::Display for Added {
    ghost output = { λ a. Some (told a) };

    fn fmt<W: fmt::Write>(&self, f: &mut fmt::Formatter<W>) -> fmt::Result {
        match *self {
            Added::Grown => write!(f, "grown"),
            Added::Begun => write!(f, "begun"),
        }
    }
}

impl fmt::Display for NoRoom {
    ghost output = { λ _. Some turned_away };

    fn fmt<W: fmt::Write>(&self, f: &mut fmt::Formatter<W>) -> fmt::Result {
        write!(f, "no room")
    }
}

impl Error for NoRoom {}
