// The walk over tables: two passes over a text, of which the second writes the reports.
#![tactic(auto)]

ghost use Rattle.std.specs.Prelude.{◌≡◌, suc, ◌+◌, ◌*◌, ◌≤◌, length};
ghost use Rattle.std.proofs.lemmas.List.Edits.{sets as stored};
ghost use Rattle.sets.specs.Sets.{members_of, reports as pairs};
ghost use Rattle.sets.specs.Table.{row_words};
ghost use Rattle.book.specs.Limits.{most_rules};
ghost use Rattle.lent.specs.Lent.{tables_of};
ghost use Rattle.walk.specs.Walk.{Walkable, reported, run_of, reports_of, written, walk_of, buffer_of};

use answers::{Damaged, WalkRefusal, Walked};
use book::Book;
use lent::Machine;
use one_byte::{Look, Walker};
use words::WORDS;

// A run over a text: the reports and the fallbacks that it makes, and its last row.
#[derive(Clone, Copy)]
pub struct Run {
    pub made: usize,
    pub falls: u64,
    pub row: usize,
}

// The words of the rules that a row reports. A twin of the builder's `words_of`: one for both would be public, and no public function may ask that the row is there.
fn ending(out: &[u64], row: usize) -> &[u64]
    requires { row_words * suc row ≤ length out.now }
    ensures members { members_of result.now ≡ reported out.now row }
    ensures words { length result.now ≡ row_words }
{
    &out[WORDS * row..WORDS * row + WORDS]
}

// How many rules are in the words of a row.
fn many(set: &[u64]) -> usize
    requires { length set.now ≡ row_words }
    ensures { (result ≡ length (members_of set.now)) × (result ≤ most_rules) }
{
    let mut all = 0;
    for word in set {
        all += bits::size(*word) as usize;
    }
    all
}

// The first pass, which writes nothing. As the paper has it, the loop over falls is inside the loop over bytes, and the outer label leaves both where a look
// finds what no build writes; so it is not `move_on` that is called here.
fn count(tables: &Machine, text: &[u8]) -> Result<Run, Damaged>
    requires { Walkable tables.now.goto.now tables.now.fall.now tables.now.out.now tables.now.rows text.now }
    ensures { result ≡ run_of tables.now.goto.now tables.now.fall.now tables.now.out.now tables.now.rows text.now }
{
    let mut walker = Walker::at_row(tables, 0).unwrap();
    let mut run = Run {
        made: 0,
        falls: 0,
        row: 0,
    };
    let mut damage = None;
    'bytes: for (at, byte) in text.iter().enumerate() {
        let mut falls: u64 = 0;
        let row = 'falls: loop {
            match walker.look(*byte) {
                Look::Go(row) => break 'falls row,
                Look::Fall(_) => falls += 1,
                Look::Wrong => {
                    damage = Some(Damaged { at });
                    break 'bytes;
                }
            }
        };
        run.row = row;
        run.falls += falls;
        run.made += many(ending(tables.out, row));
    }
    match damage {
        None => Ok(run),
        Some(damage) => Err(damage),
    }
}

// Writes (end, k) from reports[at] on for each rule k in the words of a row, ascending, and answers where the next would go.
fn report(set: &[u64], end: u32, reports: &mut [u32], at: usize) -> usize
    requires { (length set.now ≡ row_words) × (at + 2 * length (members_of set.now) ≤ length reports.old) }
    ensures { (result ≡ at + 2 * length (members_of set.now))
        × (reports.new ≡ stored reports.old at (pairs end (members_of set.now))) }
{
    let mut to = at;
    for (i, word) in set.iter().enumerate() {
        to = bits::write_members(*word, 64 * i as u16, end, reports, to);
    }
    to
}

// The second pass, up to the last of the reports, which fill `places` places.
fn write(tables: &Machine, text: &[u8], places: usize, reports: &mut [u32])
    requires walkable { Walkable tables.now.goto.now tables.now.fall.now tables.now.out.now tables.now.rows text.now }
    requires room { (length (reports_of tables.now.goto.now tables.now.fall.now tables.now.out.now tables.now.rows text.now) ≡ places) × (places ≤ length reports.old) }
    ensures { reports.new ≡ written (reports_of tables.now.goto.now tables.now.fall.now tables.now.out.now tables.now.rows text.now) reports.old }
{
    let mut row = 0;
    let mut to = 0;
    for (at, byte) in text.iter().enumerate() {
        if places <= to {
            break;
        }
        let Some(moved) = one_byte::move_on(tables, row, *byte) else {
            break;
        };
        row = moved.row;
        to = report(ending(tables.out, row), at as u32 + 1, reports, to);
    }
}

// The walk over a text. A refusal leaves the reports as they were.
pub fn walk(tables: &Machine, text: &[u8], reports: &mut [u32]) -> Result<Walked, WalkRefusal>
    ensures answer { result ≡ walk_of (tables_of tables.now) tables.now.rows text.now (length reports.old) }
    ensures buffer { reports.new ≡ buffer_of result (reports_of tables.now.goto.now tables.now.fall.now tables.now.out.now tables.now.rows text.now) reports.old }
{
    if Book::TEXT < text.len() {
        return Err(WalkRefusal::TooLong);
    }
    if !tables.has_rows() {
        return Err(WalkRefusal::BadRows { rows: tables.rows });
    }
    let run = count(tables, text)?;
    if reports.len() / 2 < run.made {
        return Err(WalkRefusal::NoRoom { needed: run.made });
    }
    write(tables, text, 2 * run.made, reports);
    Ok(Walked {
        reports: run.made,
        falls: run.falls,
        held: tables.held[run.row],
    })
}
