// The reader of rule books: from a book's bytes to its record, or the first refusal.
#![tactic(auto)]

ghost use Rattle.std.specs.Prelude.{◌≡◌, ◌+◌, ◌^◌, ◌<◌, ◌≤◌, length};
ghost use Rattle.book.specs.Content.{nothing, record_of};
ghost use Rattle.format.specs.Format.{judge_picture, judge_symbols, judge_rule};
ghost use Rattle.reader.specs.Handed.{read_of};
ghost use Rattle.reader.specs.Leaves.{picture_after, rule_after, TakesField, TakesAll};

use book::Book;
use format::{Field, Refusal};

// The answer beside the record, since a refused read hands back the empty record (paper).
#[derive(Drop)]
pub struct ReadBook {
    pub answer: Result<(), Refusal>,
    pub book: Book,
}

// ---- a rule's symbols

// What the symbols of a rule, whose body starts at `start`, are answered after `pictures` pictures: the first that is at fault counts.
fn judge_symbols(body: &[u8], start: usize, pictures: u8) -> Result<(), Refusal>
    requires { start + length body.now ≤ 2 ^ 64 }
    ensures { result ≡ judge_symbols pictures start body.now }
{
    for (i, pair) in body.chunks_exact(2).enumerate() {
        let kind = pair[0];
        if 1 < kind {
            return Err(Refusal::UnknownKind(start + 2 * i));
        }
        if kind == 1 && pictures <= pair[1] {
            return Err(Refusal::UndefinedPicture(start + 2 * i));
        }
    }
    Ok(())
}

// ---- a field

// A body and where its field stands are two parameters, as `judge_picture` and `judge_rule` of specs/ take them.

// The picture at `at`: the book has it where it is accepted.
#[tactic(auto, unfolding(format::specs::Format::judge_picture))]
fn take_picture(book: &mut Book, body: &[u8], at: usize) -> Result<(), Refusal>
    ensures judges { result ≡ judge_picture book.old.pictures at body.now }
    ensures grows { book.new ≡ picture_after result book.old body.now }
{
    if Book::PICTURES <= book.pictures {
        return Err(Refusal::PictureMany(at));
    }
    if !format::is_ascending(body) {
        return Err(Refusal::PictureBody(at));
    }
    book.add_picture(body);
    Ok(())
}

// What the rule at `at` is answered.
#[tactic(auto, unfolding(format::specs::Format::judge_rule))]
fn judge_rule(book: &Book, body: &[u8], at: usize) -> Result<(), Refusal>
    requires { at + 3 + length body.now < 2 ^ 64 }
    ensures { result ≡ judge_rule book.now.rules book.now.pictures at body.now }
{
    if Book::RULES <= book.rules {
        return Err(Refusal::RuleMany(at));
    }
    if 2 * Book::SYMBOLS < body.len() {
        return Err(Refusal::RuleLong(at));
    }
    if body.is_empty() || body.len() % 2 == 1 {
        return Err(Refusal::RuleBody(at));
    }
    judge_symbols(body, at + 3, book.pictures)
}

// The rule at `at`: the book has it where it is accepted.
fn take_rule(book: &mut Book, body: &[u8], at: usize) -> Result<(), Refusal>
    requires { at + 3 + length body.now < 2 ^ 64 }
    ensures judges { result ≡ judge_rule book.old.rules book.old.pictures at body.now }
    ensures grows { book.new ≡ rule_after result book.old body.now }
{
    judge_rule(book, body, at)?;
    book.add_rule(body);
    Ok(())
}

// The field at `at`, after what the book holds: where it ends.
#[tactic(auto, using(crate::proofs::Steps::steps), unfolding(format::specs::Format::field_at, format::specs::Format::field_of))]
fn field(book: &mut Book, bytes: &[u8], at: usize) -> Result<usize, Refusal>
    ensures { TakesField book.old bytes.now at result book.new }
{
    match format::head_at(bytes, at)? {
        Field::Picture(start, end) => {
            take_picture(book, &bytes[start..end], at)?;
            Ok(end)
        }
        Field::Rule(start, end) => {
            take_rule(book, &bytes[start..end], at)?;
            Ok(end)
        }
    }
}

// ---- a book

// All fields, from a book that holds nothing on, or the first refusal.
#[tactic(auto, using(crate::proofs::Readings::readings))]
fn take_all(book: &mut Book, bytes: &[u8]) -> Result<(), Refusal>
    requires { book.old ≡ record_of nothing }
    ensures { TakesAll bytes.now result book.new }
{
    // Each field tells where the next begins.
    let mut at: usize = 0;
    while at < bytes.len() {
        at = field(book, bytes, at)?;
    }
    if book.rules == 0 {
        return Err(Refusal::NoRule(bytes.len()));
    }
    Ok(())
}

// The book that the bytes hold, or the first refusal with the empty book.
pub fn read(bytes: &[u8]) -> ReadBook
    ensures { result ≡ read_of bytes.now }
{
    let mut book = Book::empty();
    match take_all(&mut book, bytes) {
        Ok(()) => ReadBook {
            answer: Ok(()),
            book,
        },
        Err(why) => ReadBook {
            answer: Err(why),
            book: Book::empty(),
        },
    }
}
