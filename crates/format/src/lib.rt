// The format of rule books: the refusals, a field's header, and the test of a picture's body.
#![tactic(auto)]

ghost use Rattle.std.specs.Prelude.{◌≡◌, length};
ghost use Rattle.format.specs.Answers.{number, value};
ghost use Rattle.format.specs.Format.{head_at, BodyWithin, ascending_body};

use numbered::Numbered;

// Why a book is refused, and where: the field's offset; the offset of a symbol's first byte for the last two; the book's length where it
// has no rule.
#[derive(Clone, Copy)]
pub enum Refusal {
    Cut(usize),
    OtherTag(usize),
    PictureBody(usize),
    PictureMany(usize),
    RuleBody(usize),
    RuleLong(usize),
    RuleMany(usize),
    NoRule(usize),
    UnknownKind(usize),
    UndefinedPicture(usize),
}

// The kind of a field, with the start and the end of its body.
#[derive(Clone, Copy)]
pub enum Field {
    Picture(usize, usize),
    Rule(usize, usize),
}

impl Numbered for Refusal {
    ghost number_is = { number };

    ghost value_is = { value };

    fn number(&self) -> usize {
        match self {
            Refusal::Cut(_) => 1,
            Refusal::OtherTag(_) => 2,
            Refusal::PictureBody(_) => 3,
            Refusal::PictureMany(_) => 5,
            Refusal::RuleBody(_) => 6,
            Refusal::RuleLong(_) => 7,
            Refusal::RuleMany(_) => 8,
            Refusal::NoRule(_) => 9,
            Refusal::UnknownKind(_) => 17,
            Refusal::UndefinedPicture(_) => 18,
        }
    }

    fn value(&self) -> u64 {
        match self {
            Refusal::Cut(at)
            | Refusal::OtherTag(at)
            | Refusal::PictureBody(at)
            | Refusal::PictureMany(at)
            | Refusal::RuleBody(at)
            | Refusal::RuleLong(at)
            | Refusal::RuleMany(at)
            | Refusal::NoRule(at)
            | Refusal::UnknownKind(at)
            | Refusal::UndefinedPicture(at) => *at as u64,
        }
    }
}

// The field whose header is at `at`, or why there is none: it is cut short, as it is past the end, or its tag is another.
#[tactic(auto, unfolding(crate::specs::Format::head_at))]
pub fn head_at(bytes: &[u8], at: usize) -> Result<Field, Refusal>
    ensures header { result ≡ head_at bytes.now at }
    ensures within { BodyWithin (length bytes.now) at result }
{
    let field = bytes.get(at..).ok_or(Refusal::Cut(at))?;
    let [tag, high, low, rest @ ..] = field else {
        return Err(Refusal::Cut(at));
    };
    let size = usize::from(u16::from_be_bytes([*high, *low]));
    if rest.len() < size {
        return Err(Refusal::Cut(at));
    }
    let start = at + 3;
    match tag {
        0x50 => Ok(Field::Picture(start, start + size)),
        0x52 => Ok(Field::Rule(start, start + size)),
        _ => Err(Refusal::OtherTag(at)),
    }
}

// Is a picture's body not empty and strictly ascending?
pub fn is_ascending(body: &[u8]) -> bool
    ensures { result ≡ ascending_body body.now }
{
    !body.is_empty() && body.is_sorted_by(|c, d| c < d)
}
