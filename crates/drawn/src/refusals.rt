// Refusals by the paper's table, written out once more.
ghost use Rattle.std.specs.Prelude.{◌≡◌};

// Why something is refused, by the paper's number: it is counted and written as that.
#[derive(Clone, Copy)]
pub enum Reason {
    Cut = 1,
    OtherTag = 2,
    PictureBody = 3,
    PictureMany = 5,
    RuleBody = 6,
    RuleLong = 7,
    RuleMany = 8,
    NoRule = 9,
    FewRows = 10,
    TooLong = 11,
    BadRows = 12,
    Damaged = 13,
    FewReports = 14,
    BadLine = 15,
    FewSums = 16,
    UnknownKind = 17,
    UndefinedPicture = 18,
    Past = 20,
    Full = 21,
}

// A refusal with its value.
#[derive(Clone, Copy)]
pub struct Refused {
    pub why: Reason,
    pub value: usize,
}

impl Refused {
    pub fn at(why: Reason, value: usize) -> Refused
        ensures { result ≡ record { why = why; value = value } }
    {
        Refused { why, value }
    }
}

// At this byte a walk over tables is lost.
#[derive(Clone, Copy)]
pub struct Lost {
    pub at: usize,
}

impl From<Lost> for Refused {
    fn from(lost: Lost) -> Refused {
        Refused::at(Reason::Damaged, lost.at)
    }
}
