// The longest text that is walked or tallied and one byte more, and the largest count and one more. The book is the rule `a`, `b`; the text is a, over
// and over: as a profile it is one line that has no count.
use crate::compare::{tally_text, walk_text};
use crate::report::Run;
use book::Book;
use drawn::{Key, Tables, part};
use lent::Machine;

pub fn texts(run: &mut Run) {
    let text = [0x61u8; 1048577];
    let bytes = b"\x52\x00\x04\x00a\x00b";
    if let Some(tables) = Tables::built(bytes) {
        lent(run, &tables.machine(), &reader::read(bytes).book, &text);
    }
}

// Lent as an array, the text is any text to a proof, and its bytes are not written out there.
fn lent(run: &mut Run, tables: &Machine<'_>, book: &Book, text: &[u8; 1048577]) {
    both(run, tables, book, part(text, 0, 1048576));
    both(run, tables, book, text);
    for profile in [b"ab 4294967295", b"ab 4294967296"] {
        let number = tally_text(run, tables, book, profile, 256);
        run.counts.one(number);
    }
}

fn both(run: &mut Run, tables: &Machine<'_>, book: &Book, text: &[u8]) {
    let walked = walk_text(run, tables, book, text, Key(0));
    run.long.one(walked);
    let tallied = tally_text(run, tables, book, text, 256);
    run.long_tallied.one(tallied);
}
