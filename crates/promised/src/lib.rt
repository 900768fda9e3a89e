// Why a build is refused; what a build promises is in specs/, and what is proved of that in proofs/.
#![tactic(auto)]

ghost use Rattle.std.specs.Prelude.{◌≡◌};
ghost use Rattle.promised.specs.Promise.{number_why, value_why};
ghost use Rattle.promised.specs.declared.BuildRefusal.TheVariants.{Book};

use format::Refusal;
use numbered::Numbered;

// Why a build leaves no tables: the rows lent where more are needed, or why the book is refused.
#[derive(Clone, Copy)]
pub enum BuildRefusal {
    NoRoom(usize),
    Book(Refusal),
}

impl From<Refusal> for BuildRefusal {
    ghost from_gives = { λ why e. e ≡ Book why };

    fn from(why: Refusal) -> BuildRefusal {
        BuildRefusal::Book(why)
    }
}

impl Numbered for BuildRefusal {
    ghost number_is = { number_why };

    ghost value_is = { value_why };

    fn number(&self) -> usize {
        match self {
            BuildRefusal::NoRoom(_) => 10,
            BuildRefusal::Book(why) => why.number(),
        }
    }

    fn value(&self) -> u64 {
        match self {
            BuildRefusal::NoRoom(rows) => *rows as u64,
            BuildRefusal::Book(why) => why.value(),
        }
    }
}
