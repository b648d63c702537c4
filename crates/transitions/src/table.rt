// The transition table: which row an access takes, and the class of a row.
ghost use Rattle.std.specs.Prelude.{◌≡◌};
ghost use Rattle.tracker.specs.Class.{class_of};
ghost use Rattle.tracker.specs.Row.{row_of};

use tracker::{Locality, Row};

// The row of an access by `task`, whose Seen is `seen`, to a cell in `locality`.
pub fn row_of(locality: Locality, task: u16, seen: u32, write: bool) -> Row
    ensures { result ≡ row_of locality task seen write }
{
    match locality {
        Locality::WriteExclusive(holder) => {
            if holder == task {
                Row::One
            } else if write {
                Row::Seven
            } else {
                Row::Eight
            }
        }
        Locality::ReadExclusive(holder) => {
            if holder == task {
                if write { Row::Four } else { Row::Two }
            } else if write {
                Row::Nine
            } else {
                Row::Five
            }
        }
        Locality::ReadShared(share) => {
            if write {
                Row::Ten
            } else if share <= seen {
                Row::Three
            } else {
                Row::Six
            }
        }
    }
}

// No row: the access was refused.
pub const NONE: u8 = 0;

pub const SAME: u8 = 1;

pub const UPGRADING: u8 = 2;

pub const FENCE: u8 = 3;

pub const CONFLICTING: u8 = 4;

// The class of a row's number.
pub fn class_of(row: u8) -> u8
    ensures { result ≡ class_of row }
{
    match row {
        1..=3 => SAME,
        4..=5 => UPGRADING,
        6 => FENCE,
        7..=10 => CONFLICTING,
        _ => NONE,
    }
}
