// One byte's move over tables: looks, and falls, until one look goes to a row; and the rules that a row reports.
#![tactic(auto)]

ghost use Rattle.std.specs.Prelude.{◌≡◌, ◌<◌, Option, None, IfSome, IfNone, length, true};
ghost use Rattle.sets.specs.Sets.{set_of};
ghost use Rattle.sets.specs.Table.{row_words, rules_at};
ghost use Rattle.one_byte.specs.Move.{Lent, unwritten, look_at, row_after, is_short, move_of};

use book::Book;
use lent::{Machine, NO_ENTRY};
use words::{Set, WORDS};

// What a look finds: the row to go to, the row to fall to, or what no build writes.
#[derive(Clone, Copy)]
pub enum Look {
    Go(usize),
    Fall(usize),
    Wrong,
}

// One byte's move: the row reached, and the fallbacks on the way.
#[derive(Clone, Copy)]
pub struct Moved {
    pub row: usize,
    pub falls: usize,
}

// Whether no build writes such an entry. No row is below row 0, so one test serves 65535 in row 0 and a fall that is not below its own row.
pub fn is_unwritten(n: usize, row: usize, entry: usize, to: usize) -> bool
    ensures { result ≡ unwritten n row entry to }
{
    if entry == usize::from(NO_ENTRY) {
        return row <= to;
    }
    n <= entry
}

// It stands in one of the rows that tables lend, and so looks with no test of where.
#[derive(Clone, Copy)]
pub struct Walker<'a> {
    tables: Machine<'a>,
    row: usize,
    pub ghost lent: { Lent tables.goto.now tables.fall.now tables.rows },
    pub ghost row_in: { row < tables.rows },
}

impl<'a> Walker<'a> {
    // In this row; nowhere where it is none of the rows, or the tables lend fewer.
    pub fn at_row(tables: &Machine<'a>, row: usize) -> Option<Walker<'a>>
        ensures stands { IfSome result (λ w. (w.tables ≡ tables.now) × (w.row ≡ row)) }
        ensures nowhere { IfNone result (is_short tables.now.goto.now tables.now.fall.now tables.now.rows row ≡ true) }
    {
        if tables.rows <= row || Book::ROWS < tables.rows {
            return None;
        }
        if tables.goto.len() / 256 < tables.rows || tables.fall.len() < tables.rows {
            return None;
        }
        Some(Walker {
            tables: *tables,
            row,
        })
    }

    // One look, after which it stands in the row that this goes to or falls to. The fall is read only where the entry is none of the rows.
    #[tactic(auto, unfolding(crate::specs::Move::look_at))]
    pub fn look(&mut self, byte: u8) -> Look
        ensures look { result ≡ look_at self.old.tables.goto.now self.old.tables.fall.now self.old.tables.rows self.old.row byte }
        ensures row { self.new.row ≡ row_after self.old.row result }
        ensures same { self.new.tables ≡ self.old.tables }
    {
        let entry = usize::from(self.tables.goto[256 * self.row + usize::from(byte)]);
        if entry < self.tables.rows {
            self.row = entry;
            return Look::Go(entry);
        }
        let to = usize::from(self.tables.fall[self.row]);
        if is_unwritten(self.tables.rows, self.row, entry, to) {
            return Look::Wrong;
        }
        self.row = to;
        Look::Fall(to)
    }
}

// One byte's move. Where the row is none of the rows, or the tables have fewer, it is lost too.
pub fn move_on(tables: &Machine, from: usize, byte: u8) -> Option<Moved>
    ensures { result ≡ move_of tables.now.goto.now tables.now.fall.now tables.now.rows from byte }
{
    let mut walker = Walker::at_row(tables, from)?;
    let mut falls = 0;
    loop {
        match walker.look(byte) {
            Look::Go(row) => return Some(Moved { row, falls }),
            Look::Fall(_) => falls += 1,
            Look::Wrong => return None,
        }
    }
}

// The rules that a row reports; none where the table has no such row.
pub fn rules(out: &[u64], row: usize) -> Set
    ensures { (set_of result ≡ rules_at out.now row) × (length result ≡ row_words) }
{
    let mut set = words::none();
    if out.len() <= row {
        return set;
    }
    let start = WORDS * row;
    // A row that is whole takes one test, and none for each word: the tally asks at every byte.
    if start + WORDS <= out.len() {
        set.copy_from_slice(&out[start..start + WORDS]);
        return set;
    }
    for i in 0..WORDS {
        set[i] = words::word(out, start + i);
    }
    set
}
