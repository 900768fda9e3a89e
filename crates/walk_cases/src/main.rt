// Walks and tallies by the thousand, over the tables of drawn books and over damaged ones: what the proved walk and tally answer is compared with a second
// matcher, which is written from the paper's words alone. Of the proved crates it takes the tables of a book, and its rules from the record that is read:
// `cases` compares both with the book's bytes.
#![tactic(auto)]

mod compare;
mod draw;
mod folded;
mod long;
mod report;
mod search;
mod tables;

use book::Book;
use drawn::{Key, Tables, many_rules};
use lent::Machine;
use report::Run;
use search::Search;

const BOOKS: usize = 2048;

fn main() {
    let mut run = Run::default();
    for number in 0..BOOKS {
        one(&mut run, number);
    }
    long::texts(&mut run);
    run.tell();
}

// The book of a number.
fn one(run: &mut Run, number: usize) {
    run.differences.book = number;
    let key = Key::of_book(number);
    let rules = if number % 24 == 0 {
        many_rules(number / 24, 128)
    } else {
        1 + key.pick(4, 6) as u16
    };
    let page = draw::book(key, rules);
    if let Some(tables) = Tables::built(page.text()) {
        run.built.one();
        if 64 < rules {
            run.large.one();
        }
        searched(run, &tables, &reader::read(page.text()).book, key);
    }
}

// Four texts and profiles over the tables as built, and eight over damaged ones.
fn searched(run: &mut Run, tables: &Tables, book: &Book, key: Key) {
    for turn in 0..12 {
        let own = key.at(100 + turn);
        if turn < 4 {
            let (walked, tallied) = both(run, &tables.machine(), book, own);
            run.walked.one(walked);
            run.tallied.one(tallied);
        } else {
            let mut other = *tables;
            let machine = tables::damaged(&mut other, own);
            let (walked, tallied) = both(run, &machine, &machine, own);
            run.damaged.one(walked);
            run.spoiled.one(tallied);
        }
    }
}

// A text walked and a profile tallied. Answers the numbers of the two answers that are meant.
fn both<S: Search>(run: &mut Run, tables: &Machine<'_>, how: &S, key: Key) -> (usize, usize) {
    let text = draw::text(key.at(20));
    let walked = compare::walk_text(run, tables, how, text.text(), key);
    let profile = draw::profile(key.at(21));
    let places = places_for(key);
    let tallied = compare::tally_text(run, tables, how, profile.text(), places);
    (walked, tallied)
}

// Mostly 256 or more, and often just about so many.
fn places_for(key: Key) -> usize {
    match key.pick(22, 16) {
        0 => key.pick(23, 256),
        1 => 250 + key.pick(23, 8),
        _ => 256 + key.pick(23, 7),
    }
}
