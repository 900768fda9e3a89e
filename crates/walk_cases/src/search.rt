// The second matcher: compares bytes with symbols, at every end anew; and the second walk over tables, which may be damaged, by the paper's words. Sums
// here stay small; one that did not would wrap.
use book::Book;
use drawn::{Lost, at, has, move_by, part, put};
use lent::Machine;

// Room for the pairs of an end and a rule that are reported there, and how many there are. The pairs are flat, as the paper's report buffer has them.
#[derive(Drop)]
pub struct Reports {
    pairs: [u64; 8192],
    made: usize,
}

impl Reports {
    pub fn none() -> Reports {
        Reports {
            pairs: [0; 8192],
            made: 0,
        }
    }

    pub fn made(&self) -> usize {
        self.made
    }

    // The ends and rules in turn, as far as there is room.
    pub fn pairs(&self) -> &[u64] {
        part(&self.pairs, 0, self.made.wrapping_mul(2))
    }

    fn clear(&mut self) {
        self.made = 0;
    }

    fn list(&mut self, end: usize, k: usize) {
        let place = self.made.wrapping_mul(2);
        put(&mut self.pairs, place, end as u64);
        put(&mut self.pairs, place.wrapping_add(1), k as u64);
        self.made = self.made.wrapping_add(1);
    }
}

// The fallbacks and the held length of an accepted walk.
#[derive(Clone, Copy)]
pub struct Found {
    pub falls: u64,
    pub held: u8,
}

// What a text can be searched by.
pub trait Search {
    // Lists all reports of the text.
    fn search(&self, text: &[u8], reports: &mut Reports) -> Result<Found, Lost>;
}

// ---- by the rules

impl Search for Book {
    fn search(&self, text: &[u8], reports: &mut Reports) -> Result<Found, Lost> {
        reports.clear();
        let mut lengths = 0;
        let mut falls = 0u64;
        for end in 1..=text.len() {
            let now = at_end(self, part(text, 0, end), reports);
            falls = falls.wrapping_add(falls_between(lengths, now));
            lengths = now;
        }
        Ok(Found {
            falls,
            held: longest(lengths),
        })
    }
}

fn is_fit(book: &Book, byte: u8, symbol: u16) -> bool {
    if symbol < 256 {
        u16::from(byte) == symbol
    } else {
        has(
            u64::from(book.picture[usize::from(byte)]),
            usize::from(symbol - 256),
        )
    }
}

// Whether the last j bytes of the text fit the first j symbols of rule k.
fn is_opening(book: &Book, k: usize, j: usize, text: &[u8]) -> bool {
    let symbols = part(&book.symbols, 64 * (k % 256), 16384);
    let first = text.len().saturating_sub(j);
    part(text, first, text.len())
        .iter()
        .zip(symbols)
        .all(|(byte, symbol)| is_fit(book, *byte, *symbol))
}

// The lengths, as a set, of the openings of rule k that the text ends with. A rule has at most 8 symbols.
fn openings(book: &Book, k: usize, text: &[u8]) -> u64 {
    let mut lengths = 0u64;
    for j in 1..9usize {
        if j <= length_of(book, k) && j <= text.len() && is_opening(book, k, j, text) {
            lengths |= 1 << j;
        }
    }
    lengths
}

fn length_of(book: &Book, k: usize) -> usize {
    at(&book.lengths, k).into()
}

// The lengths of all rules' openings that the text ends with. Lists the rules that it ends with.
fn at_end(book: &Book, text: &[u8], reports: &mut Reports) -> u64 {
    let mut lengths = 0u64;
    for k in 0..book.rules.min(256) {
        let own = openings(book, k, text);
        lengths |= own;
        if has(own, length_of(book, k)) {
            reports.list(text.len(), k);
        }
    }
    lengths
}

// The longest, or 0.
fn longest(lengths: u64) -> u8 {
    (1..9u8)
        .rev()
        .find(|j| has(lengths, (*j).into()))
        .unwrap_or(0)
}

// The fallbacks of a byte, from the lengths of the openings before it and with it: those, from the longest on, that do not go on with it.
fn falls_between(before: u64, with: u64) -> u64 {
    let mut falls = 0u64;
    for j in (1..9usize).rev() {
        if has(before, j) {
            if has(with, j + 1) {
                break;
            }
            falls = falls.wrapping_add(1);
        }
    }
    falls
}

// ---- by the tables

// N is known to be right.
impl Search for Machine<'_> {
    fn search(&self, text: &[u8], reports: &mut Reports) -> Result<Found, Lost> {
        reports.clear();
        let mut row = 0;
        let mut falls = 0u64;
        for (i, byte) in text.iter().enumerate() {
            let moved = move_by(self, row, *byte).ok_or(Lost { at: i })?;
            row = moved.row;
            falls = falls.wrapping_add(moved.falls);
            list_row(self, row, i.wrapping_add(1), reports);
        }
        Ok(Found {
            falls,
            held: at(self.held, row),
        })
    }
}

// Lists what the row reports.
fn list_row(tables: &Machine<'_>, row: usize, end: usize, reports: &mut Reports) {
    for k in 0..256usize {
        let word = 4 * (row % 64) + k / 64;
        if has(at(tables.out, word), k % 64) {
            reports.list(end, k);
        }
    }
}
