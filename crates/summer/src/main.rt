// The summer: reads a book, `book.bin`, and a folded profile, standard input, and writes the rows used and a line for each rule whose sum is not 0;
// or why it is refused.
#![tactic(auto)]

ghost use Rattle.std.specs.Prelude.{◌≤◌, length, take};
ghost use Rattle.summer.specs.Summing.{total_room, total_lines, sums_room, SummerAnswer};

use book::Book;
use lent::Machine;
use numbered::Numbered;
use output::Answer;
use program::Lines;

// The room for an answer: for each rule a line of two numbers of up to 20 digits, and a line of up to 64 bytes before these.
const ROOM: usize = 64 + 42 * Book::RULES;

fn main(rt: HostRuntime) {
    program::run(&rt, sum);
}

// Writes what the book and the profile come to, from a buffer of the size that it needs.
fn sum(book: &[u8], profile: &[u8]) {
    let mut answer = [0u8; ROOM];
    let end = put_answer(book, profile, &mut answer);
    output::write(&answer[..end]);
}

// Puts the line of the book's build, and those of the profile's tally over its tables. Answers where they end.
// The lister has a pair like this and its caller: the promise, here `SummerAnswer`, is each program's own, and so is the room, a constant as an array's length.
fn put_answer(book: &[u8], profile: &[u8], answer: &mut [u8]) -> usize
    requires { sums_room ≤ length answer.old }
    ensures within { result ≤ length answer.new }
    ensures answers { SummerAnswer book.now profile.now (take result answer.new) }
{
    program::put_answer(book, &Total { profile }, answer)
}

// A tally of the profile over the tables, and what it comes to.
#[derive(Drop)]
struct Total<'a> {
    profile: &'a [u8],
}

impl Lines for Total<'_> {
    ghost lines_of = { λ s tables rows. total_lines tables rows s.profile.now };

    ghost room = { total_room };

    fn put(&self, tables: &Machine, answer: &mut Answer) {
        let mut sums = [0u64; Book::RULES];
        match tally::tally(tables, self.profile, &mut sums) {
            Ok(()) => shown::put_sums(answer, &sums),
            Err(why) => answer.put_refusal(why.number(), why.value()),
        }
    }
}
