// The tables of a book, as they are built, and the second move over tables, by the paper's words: these may be damaged.
ghost use Rattle.lent.specs.Lent.{five, tables_of};
ghost use Rattle.std.specs.Prelude.{◌≡◌, ◌*◌, ◌<◌, ◌≤◌, length, IfOk, IfSome};

use crate::at;
use crate::refusals::{Reason, Refused};
use lent::{Buffers, Machine};

// Room for 64 rows, and the row count that they are walked with.
#[derive(Clone, Copy)]
pub struct Tables {
    pub goto: [u16; 16384],
    pub fall: [u16; 64],
    pub held: [u8; 64],
    pub live: [u64; 256],
    pub out: [u64; 256],
    pub rows: usize,
}

impl Tables {
    // The tables of the book in the bytes; nothing where it is refused.
    pub fn built(bytes: &[u8]) -> Option<Tables>
        ensures { IfSome result (λ t. t.rows ≤ 64) }
    {
        let mut goto = [0u16; 16384];
        let mut fall = [0u16; 64];
        let mut held = [0u8; 64];
        let mut live = [0u64; 256];
        let mut out = [0u64; 256];
        let mut buffers = Buffers {
            goto: &mut goto,
            fall: &mut fall,
            held: &mut held,
            live: &mut live,
            out: &mut out,
        };
        let rows = build::build(bytes, &mut buffers).ok()?;
        Some(Tables {
            goto,
            fall,
            held,
            live,
            out,
            rows,
        })
    }

    pub fn machine(&self) -> Machine<'_>
        ensures tables { tables_of result ≡ five self.now.goto self.now.fall self.now.held self.now.live self.now.out }
        ensures rows { result.rows ≡ self.now.rows }
    {
        Machine {
            goto: &self.goto,
            fall: &self.fall,
            held: &self.held,
            live: &self.live,
            out: &self.out,
            rows: self.rows,
        }
    }
}

// The rows that tables lend: written once more, as is the entry below, since nothing is shared with what is compared.
pub fn rows_lent(tables: &Machine<'_>) -> usize
    ensures goto { 256 * result ≤ length tables.now.goto.now }
    ensures rows { (result ≤ length tables.now.fall.now) × (result ≤ length tables.now.held.now) }
    ensures sets { (4 * result ≤ length tables.now.live.now) × (4 * result ≤ length tables.now.out.now) }
{
    let sets = (tables.live.len() / 4).min(tables.out.len() / 4);
    let rows = (tables.goto.len() / 256).min(tables.fall.len());
    rows.min(tables.held.len()).min(sets)
}

// What a text or a profile is refused for before it is looked at: its size, or a row count that the tables do not lend.
pub fn judge(tables: &Machine<'_>, text: &[u8]) -> Result<(), Refused>
    ensures { IfOk result (λ _. (length text.now ≤ 1048576) × (0 < tables.now.rows) × (256 * tables.now.rows ≤ length tables.now.goto.now)) }
{
    let rows = tables.rows;
    if LONGEST < text.len() {
        Err(Refused::at(Reason::TooLong, LONGEST))
    } else if rows == 0 || rows_lent(tables) < rows {
        Err(Refused::at(Reason::BadRows, rows))
    } else {
        Ok(())
    }
}

const LONGEST: usize = 1048576;

// The entry of goto that says: fall back.
pub const NO_ENTRY: u16 = 65535;

// The row that a byte leads to, and by how many fallbacks: written once more, as above.
#[derive(Clone, Copy)]
pub struct Moved {
    pub row: usize,
    pub falls: u64,
}

// One byte's move; nothing where it is lost. Rows get smaller with each fallback, so N turns are enough.
pub fn move_by(tables: &Machine<'_>, from: usize, byte: u8) -> Option<Moved>
    ensures { IfSome result (λ m. (m.row < tables.now.rows) × (m.falls < tables.now.rows)) }
{
    let mut row = from;
    for falls in 0..tables.rows as u64 {
        let place = 256 * (row % 64) + usize::from(byte);
        let next = at(tables.goto, place);
        if next != NO_ENTRY {
            let row = usize::from(next);
            return (row < tables.rows).then_some(Moved { row, falls });
        }
        let shorter = at(tables.fall, row).into();
        if row <= shorter {
            return None;
        }
        row = shorter;
    }
    None
}
