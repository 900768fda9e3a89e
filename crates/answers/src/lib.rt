// The answers of a walk and of a tally: what a walk tells, and the refusals with the paper's numbers and values.
#![tactic(auto)]

ghost use Rattle.std.specs.Prelude.{◌≡◌};
ghost use Rattle.answers.specs.declared.WalkRefusal.TheVariants.{Damaged as WalkDamaged};
ghost use Rattle.answers.specs.declared.TallyRefusal.TheVariants.{BadLine as TallyBadLine, Damaged as TallyDamaged};
ghost use Rattle.answers.specs.Walked.{refusal_number, refusal_value};
ghost use Rattle.answers.specs.Tallied.{refusal_number as tally_number, refusal_value as tally_value};

use book::Book;
use lines::BadLine;
use numbered::{Numbered, Worth};

// What an accepted walk tells: its reports, its fallbacks and the held length of its last row.
#[derive(Clone, Copy)]
pub struct Walked {
    pub reports: usize,
    pub falls: u64,
    pub held: u8,
}

// Of its three values the first.
impl Worth for Walked {
    ghost worth_is = { λ w. w.reports };

    fn worth(&self) -> u64 {
        self.reports as u64
    }
}

// At this byte a look finds what no build writes.
#[derive(Clone, Copy)]
pub struct Damaged {
    pub at: usize,
}

// Why a walk is refused.
#[derive(Clone, Copy)]
pub enum WalkRefusal {
    TooLong,
    BadRows { rows: usize },
    Damaged { at: usize },
    NoRoom { needed: usize },
}

impl From<Damaged> for WalkRefusal {
    ghost from_gives = { λ d r. r ≡ WalkDamaged d.at };

    fn from(damage: Damaged) -> WalkRefusal {
        WalkRefusal::Damaged { at: damage.at }
    }
}

impl Numbered for WalkRefusal {
    ghost number_is = { refusal_number };

    ghost value_is = { refusal_value };

    fn number(&self) -> usize {
        match self {
            WalkRefusal::TooLong => 11,
            WalkRefusal::BadRows { rows: _ } => 12,
            WalkRefusal::Damaged { at: _ } => 13,
            WalkRefusal::NoRoom { needed: _ } => 14,
        }
    }

    fn value(&self) -> u64 {
        match self {
            WalkRefusal::TooLong => Book::TEXT as u64,
            WalkRefusal::BadRows { rows } => *rows as u64,
            WalkRefusal::Damaged { at } => *at as u64,
            WalkRefusal::NoRoom { needed } => *needed as u64,
        }
    }
}

// Why a tally is refused.
#[derive(Clone, Copy)]
pub enum TallyRefusal {
    TooLong,
    BadRows { rows: usize },
    FewSums { places: usize },
    BadLine { at: usize },
    Damaged { at: usize },
}

impl From<BadLine> for TallyRefusal {
    ghost from_gives = { λ l r. r ≡ TallyBadLine l.at };

    fn from(line: BadLine) -> TallyRefusal {
        TallyRefusal::BadLine { at: line.at }
    }
}

impl From<Damaged> for TallyRefusal {
    ghost from_gives = { λ d r. r ≡ TallyDamaged d.at };

    fn from(damage: Damaged) -> TallyRefusal {
        TallyRefusal::Damaged { at: damage.at }
    }
}

impl Numbered for TallyRefusal {
    ghost number_is = { tally_number };

    ghost value_is = { tally_value };

    fn number(&self) -> usize {
        match self {
            TallyRefusal::TooLong => 11,
            TallyRefusal::BadRows { rows: _ } => 12,
            TallyRefusal::FewSums { places: _ } => 16,
            TallyRefusal::BadLine { at: _ } => 15,
            TallyRefusal::Damaged { at: _ } => 13,
        }
    }

    fn value(&self) -> u64 {
        match self {
            TallyRefusal::TooLong => Book::TEXT as u64,
            TallyRefusal::BadRows { rows } => *rows as u64,
            TallyRefusal::FewSums { places } => *places as u64,
            TallyRefusal::BadLine { at } => *at as u64,
            TallyRefusal::Damaged { at } => *at as u64,
        }
    }
}
