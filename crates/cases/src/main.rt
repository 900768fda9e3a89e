// Books by the thousand, drawn from keys, sound and spoiled and near the limits: what the proved reader and builder answer is compared with a second reader
// and second rows, which are written from the paper's words alone and share nothing with them. It catches a wrong definition, which no proof does.
// Walks and tallies are compared in `walk_cases`.
#![tactic(auto)]

mod compare;
mod draw;
mod fitting;
mod judge;
mod record;
mod report;
mod standing;

use draw::{Kind, Plan};
use drawn::Key;
use report::Run;

const BOOKS: usize = 4000;

fn main() {
    let mut run = Run::default();
    for number in 0..BOOKS {
        one(&mut run, number);
    }
    run.tell();
}

// The book of a number; one in three is spoiled, of the large ones one in eight.
fn one(run: &mut Run, number: usize) {
    run.differences.book = number;
    let key = Key::of_book(number);
    let plan = Plan::of(number, key);
    let often = match plan.kind {
        Kind::Large => {
            run.large.one();
            8
        }
        Kind::Digits => {
            run.digits.one();
            3
        }
        _ => 3,
    };
    let mut page = draw::book(key, &plan);
    if key.is_first(7, often) {
        draw::spoil(&mut page, key);
    }
    compare::book(run, page.text(), key);
}
