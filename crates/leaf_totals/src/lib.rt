// The record of leaf totals, and the refusals of a profile, with the paper's numbers and values.
#![tactic(auto)]

ghost use Rattle.std.specs.Prelude.{◌≡◌};
ghost use Rattle.leaf_totals.specs.declared.AddRefusal.TheVariants.{BadLine as AddBadLine, Damaged as AddDamaged};
ghost use Rattle.leaf_totals.specs.Record.{most_profiles, totals_in, empty_totals};
ghost use Rattle.leaf_totals.specs.Totalled.{refusal_number, refusal_value};

use answers::Damaged;
use book::Book;
use lines::BadLine;
use numbered::Numbered;
use shares::{LIMIT, PLACES};

// The most profiles of a record.
pub const PROFILES: usize = 1024;

// The totals of 256 families and of unnamed, and how many profiles they are of.
#[derive(Clone, Copy)]
pub struct LeafTotals {
    pub totals: [u64; Book::RULES],
    pub unnamed: u64,
    pub profiles: usize,
}

impl LeafTotals {
    // Nothing counted.
    pub fn empty() -> LeafTotals
        ensures is_empty { result ≡ empty_totals }
        ensures profiles { PROFILES ≡ most_profiles }
    {
        LeafTotals {
            totals: [0; Book::RULES],
            unnamed: 0,
            profiles: 0,
        }
    }
}

// Why a profile is refused.
#[derive(Clone, Copy)]
pub enum AddRefusal {
    Full,
    TooLong,
    BadRows { rows: usize },
    BadLine { at: usize },
    Damaged { at: usize },
    Past,
}

impl From<BadLine> for AddRefusal {
    ghost from_gives = { λ l r. r ≡ AddBadLine l.at };

    fn from(line: BadLine) -> AddRefusal {
        AddRefusal::BadLine { at: line.at }
    }
}

impl From<Damaged> for AddRefusal {
    ghost from_gives = { λ d r. r ≡ AddDamaged d.at };

    fn from(damage: Damaged) -> AddRefusal {
        AddRefusal::Damaged { at: damage.at }
    }
}

impl Numbered for AddRefusal {
    ghost number_is = { refusal_number };

    ghost value_is = { refusal_value };

    fn number(&self) -> usize {
        match self {
            AddRefusal::Full => 21,
            AddRefusal::TooLong => 11,
            AddRefusal::BadRows { rows: _ } => 12,
            AddRefusal::BadLine { at: _ } => 15,
            AddRefusal::Damaged { at: _ } => 13,
            AddRefusal::Past => 20,
        }
    }

    fn value(&self) -> u64 {
        match self {
            AddRefusal::Full => PROFILES as u64,
            AddRefusal::TooLong => Book::TEXT as u64,
            AddRefusal::BadRows { rows } => *rows as u64,
            AddRefusal::BadLine { at } => *at as u64,
            AddRefusal::Damaged { at } => *at as u64,
            AddRefusal::Past => LIMIT,
        }
    }
}

// All totals of a record, unnamed last.
pub fn totals_of(old: LeafTotals) -> [u64; PLACES]
    ensures { result ≡ totals_in old }
{
    let mut all: [u64; PLACES] = [0; PLACES];
    all[..Book::RULES].copy_from_slice(&old.totals);
    all[Book::RULES] = old.unnamed;
    all
}
