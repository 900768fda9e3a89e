// The five tables: lent to be walked over, with the rows that count, or to be filled. The rows that they lend, zeros in every entry, a set stored in a row.
#![tactic(auto)]

ghost use Rattle.std.specs.Prelude.{◌≡◌};
ghost use Rattle.lent.specs.Lent.{lent_of, lent, tables_of, buffers_of, has_rows, zeroed, IsSame, stored_row};

use book::Book;
use words::WORDS;

// The entry that says: fall back. A number, as the paper fixes what goto holds.
pub const NO_ENTRY: u16 = 65535;

// The rows lent by tables of these lengths: five numbers, as its promise is of any five.
pub fn rows_lent(goto: usize, fall: usize, held: usize, live: usize, out: usize) -> usize
    ensures { result ≡ lent_of goto fall held live out }
{
    let sets = (live / WORDS).min(out / WORDS).min(Book::ROWS);
    (goto / 256).min(fall).min(held).min(sets)
}

// Five tables to be walked over, and N: the first so many rows count.
#[derive(Clone, Copy)]
pub struct Machine<'a> {
    pub goto: &'a [u16],
    pub fall: &'a [u16],
    pub held: &'a [u8],
    pub live: &'a [u64],
    pub out: &'a [u64],
    pub rows: usize,
}

impl Machine<'_> {
    // Whether the tables lend so many rows, and these are not none.
    pub fn has_rows(&self) -> bool
        ensures { result ≡ has_rows (tables_of self.now) self.now.rows }
    {
        if self.rows == 0 {
            return false;
        }
        self.rows <= self.lent()
    }

    // The rows that the tables lend.
    pub fn lent(&self) -> usize
        ensures { result ≡ lent (tables_of self.now) }
    {
        rows_lent(
            self.goto.len(),
            self.fall.len(),
            self.held.len(),
            self.live.len(),
            self.out.len(),
        )
    }
}

// Five buffers to be filled: `&mut` slices, where a machine has shared ones. Each function that fills them says that they are the same five (IsSame), as a
// `&mut` promises nothing of what it leaves: so the caller's slices are known.
#[derive(Drop)]
pub struct Buffers<'a> {
    pub goto: &'a mut [u16],
    pub fall: &'a mut [u16],
    pub held: &'a mut [u8],
    pub live: &'a mut [u64],
    pub out: &'a mut [u64],
}

impl Buffers<'_> {
    // The five as tables, of which so many rows count.
    pub fn machine(&self, rows: usize) -> Machine<'_>
        ensures tables { tables_of result ≡ buffers_of self.now }
        ensures rows { result.rows ≡ rows }
    {
        Machine {
            goto: self.goto,
            fall: self.fall,
            held: self.held,
            live: self.live,
            out: self.out,
            rows,
        }
    }

    // The rows that the buffers lend.
    pub fn lent(&self) -> usize
        ensures { result ≡ lent (buffers_of self.now) }
    {
        self.machine(0).lent()
    }

    // Every entry 0.
    pub fn zero(&mut self)
        ensures zeros { buffers_of self.new ≡ zeroed (buffers_of self.old) }
        ensures same { IsSame self.old self.new }
    {
        self.goto.fill(0);
        self.fall.fill(0);
        self.held.fill(0);
        self.live.fill(0);
        self.out.fill(0);
    }
}

// The words of a set in row n of a table. Where there is no such row, or the words are not a row's, the table stays as it was.
pub fn store(table: &mut [u64], n: usize, set: &[u64])
    ensures { table.new ≡ stored_row table.old n set.now }
{
    if table.len() / WORDS <= n {
        return;
    }
    if set.len() != WORDS {
        return;
    }
    let start = WORDS * n;
    table[start..start + WORDS].copy_from_slice(set);
}
