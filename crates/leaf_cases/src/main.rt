// Leaf totals by the thousand, over the tables of drawn books and over damaged ones: what the proved sum of leaves answers, and every total of its record,
// is compared with a second reading, which is written from the paper's words alone; and the shares of records with shares dealt out one by one.
// Of the proved crates it takes the tables of a book, which `cases` compares with the book's bytes.
#![tactic(auto)]

mod compare;
mod draw;
mod limits;
mod plain;
mod report;
mod tables;

use draw::Rules;
use drawn::{Key, Tables};
use report::Run;

const BOOKS: usize = 300;

fn main() {
    let mut run = Run::default();
    let mut text = [0x61u8; 1048577];
    limits::all(&mut run, &mut text, b"\x52\x00\x04\x00a\x00b");
    for number in 0..BOOKS {
        one(&mut run, number);
    }
    run.tell();
}

// How many rules the book of a number has; every eighth has many.
fn rules_for(number: usize) -> u16 {
    let key = Key(number as u64);
    if number % 8 == 0 {
        65 + key.pick(1, 192) as u16
    } else {
        1 + key.pick(1, 6) as u16
    }
}

fn one(run: &mut Run, number: usize) {
    run.differences.book = number;
    let rules = Rules {
        key: Key::of_book(number),
        count: rules_for(number),
    };
    if let Some(tables) = Tables::built(rules.book().text()) {
        run.built
            .one(usize::from(rules.count).saturating_sub(1) / 64);
        profiles(run, &tables, &rules);
    }
}

// Four profiles over the tables as built and eight over damaged ones join one record.
fn profiles(run: &mut Run, tables: &Tables, rules: &Rules) {
    let mut record = draw::record(rules.key);
    for turn in 0..12 {
        let own = rules.key.at(600 + turn);
        let profile = rules.profile(own);
        let text = profile.text();
        let added = if turn < 4 {
            compare::add(run, &tables.machine(), rules, text, record)
        } else {
            let mut other = *tables;
            tables::damage(&mut other, own);
            let machine = other.machine();
            compare::add(run, &machine, &machine, text, record)
        };
        record = added.record;
        if turn < 4 {
            run.added.one(added.number);
        } else {
            run.damaged.one(added.number);
        }
    }
    let number = compare::share(run, &record);
    run.shared.one(number);
}
