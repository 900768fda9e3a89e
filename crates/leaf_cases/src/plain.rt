// The second reading, by the paper's words: the last frame of each line, and its family: by the rules' symbols alone, or over tables, which may be damaged.
// Sums here stay small; one that did not would wrap.
use crate::draw::Rules;
use drawn::{Line, Lost, Reason, Refused, add, at, first_bad, has, lines_of, move_by, part};
use lent::Machine;

// What a frame's family can be found by.
pub trait Families {
    // The number of the frame's family, or nothing where it has none.
    fn family(&self, frame: &[u8]) -> Result<Option<usize>, Lost>;
}

// ---- by the rules

// The first rule that the whole frame fits.
impl Families for Rules {
    fn family(&self, frame: &[u8]) -> Result<Option<usize>, Lost> {
        let first = (0..self.count).find(|k| is_fit(self, *k, frame));
        Ok(first.map(usize::from))
    }
}

// Whether the frame has the length of rule k, and fits it symbol by symbol.
fn is_fit(rules: &Rules, k: u16, frame: &[u8]) -> bool {
    let length = rules.length_of(k);
    frame.len() == usize::from(length)
        && (0..length).all(|j| fits(at(frame, j.into()), rules.symbol_of(k, j)))
}

// Whether a byte fits a symbol. The pictures are those of every book.
fn fits(byte: u8, symbol: u16) -> bool {
    match symbol {
        256 => byte == b'a' || byte == b'b',
        257 => byte == b'b' || byte == b'c',
        258 => byte == b'1' || byte == b';',
        _ => u16::from(byte) == symbol,
    }
}

// ---- over tables

// Where the row reached holds the whole frame, the lowest rule in both live and out. N is known to be right.
impl Families for Machine<'_> {
    fn family(&self, frame: &[u8]) -> Result<Option<usize>, Lost> {
        let mut row = 0;
        for (i, byte) in frame.iter().enumerate() {
            row = move_by(self, row, *byte).ok_or(Lost { at: i })?.row;
        }
        if usize::from(at(self.held, row)) != frame.len() {
            return Ok(None);
        }
        Ok(lowest(self, row))
    }
}

fn lowest(tables: &Machine<'_>, row: usize) -> Option<usize> {
    (0..256).find(|k| {
        let word = 4 * (row % 64) + *k / 64;
        has(at(tables.live, word) & at(tables.out, word), *k % 64)
    })
}

// ---- what a profile adds

// Totals by families, unnamed last; the counts of all leaves; and how many leaves are named and unnamed.
#[derive(Clone, Copy)]
pub struct Parts {
    pub totals: [u64; 257],
    pub counts: u64,
    pub named: usize,
    pub unnamed: usize,
}

impl Parts {
    pub fn none() -> Parts {
        Parts {
            totals: [0; 257],
            counts: 0,
            named: 0,
            unnamed: 0,
        }
    }

    fn add_leaf(&mut self, family: Option<usize>, count: u64) {
        let counted = match family {
            Some(_) => &mut self.named,
            None => &mut self.unnamed,
        };
        *counted = counted.wrapping_add(1);
        self.counts = self.counts.wrapping_add(count);
        add(&mut self.totals, family.unwrap_or(256), count);
    }

    // What the lines add, up to the first that breaks the rules; the first leaf that is lost counts where there is none.
    pub fn add_lines<F: Families>(&mut self, how: &F, profile: &[u8]) -> Result<(), Refused> {
        let bad = first_bad(profile);
        let sound = part(profile, 0, bad.unwrap_or(profile.len()));
        let mut answer = Ok(());
        let mut from = 0usize;
        for bytes in lines_of(sound).split(|byte| *byte == b'\n') {
            if let Some(line) = Line::of(bytes) {
                let start = leaf_of(line.stack);
                let leaf = part(line.stack, start, line.stack.len());
                match how.family(leaf) {
                    Ok(family) => self.add_leaf(family, line.count),
                    Err(lost) => {
                        let at = from.wrapping_add(start).wrapping_add(lost.at);
                        answer = answer.and(Err(Refused::from(Lost { at })));
                    }
                }
            }
            from = from.wrapping_add(bytes.len()).wrapping_add(1);
        }
        match bad {
            Some(from) => Err(Refused::at(Reason::BadLine, from)),
            None => answer,
        }
    }
}

// The place after the last `;`, or 0.
fn leaf_of(stack: &[u8]) -> usize {
    match stack.iter().rposition(|byte| *byte == b';') {
        Some(i) => i + 1,
        None => 0,
    }
}
