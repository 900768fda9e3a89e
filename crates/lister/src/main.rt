// The lister: reads a book, `book.bin`, and a text, standard input, and writes the rows used, a line for each report, and the fallbacks with the
// held length; or why it is refused.
#![tactic(auto)]

ghost use Rattle.std.specs.Prelude.{◌≤◌, length, take};
ghost use Rattle.lister.specs.Listing.{search_room, search_lines, list_room, ListerAnswer};

use lent::Machine;
use numbered::Numbered;
use output::Answer;
use program::Lines;

// How many reports there is room for, and the places of their buffer, two a report.
const REPORTS: usize = 8192;

const PLACES: usize = 2 * REPORTS;

// The room for an answer: for each report a line of two numbers of up to 10 digits, and lines of up to 64 bytes before and after these.
const ROOM: usize = 64 + 22 * REPORTS + 64;

fn main(rt: HostRuntime) {
    program::run(&rt, list);
}

// Writes what the book and the text come to, from a buffer of the size that it needs.
fn list(book: &[u8], text: &[u8]) {
    let mut answer = [0u8; ROOM];
    let end = put_answer(book, text, &mut answer);
    output::write(&answer[..end]);
}

// Puts the line of the book's build, and those of the text's walk over its tables. Answers where they end.
// The summer has a pair like this and its caller: the promise, here `ListerAnswer`, is each program's own, and so is the room, a constant as an array's length.
fn put_answer(book: &[u8], text: &[u8], answer: &mut [u8]) -> usize
    requires { list_room ≤ length answer.old }
    ensures within { result ≤ length answer.new }
    ensures answers { ListerAnswer book.now text.now (take result answer.new) }
{
    program::put_answer(book, &Search { text }, answer)
}

// A walk of the text over the tables, and what it comes to.
#[derive(Drop)]
struct Search<'a> {
    text: &'a [u8],
}

impl Lines for Search<'_> {
    ghost lines_of = { λ s tables rows. search_lines tables rows s.text.now };

    ghost room = { search_room };

    fn put(&self, tables: &Machine, answer: &mut Answer) {
        let mut reports = [0u32; PLACES];
        match walk::walk(tables, self.text, &mut reports) {
            Ok(walked) => shown::put_walk(
                answer,
                &reports[..2 * walked.reports],
                walked.falls,
                walked.held,
            ),
            Err(why) => answer.put_refusal(why.number(), why.value()),
        }
    }
}
