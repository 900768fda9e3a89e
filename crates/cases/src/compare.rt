// Reads and builds compared: the answer, and every place of every buffer lent.
ghost use Rattle.std.specs.Prelude.{◌≤◌};

use crate::fitting::{self, Fits};
use crate::judge::{self, Fault, Sound};
use crate::record;
use crate::report::Run;
use crate::standing::{Rows, Standing};
use drawn::{Key, Reason, Refused, at, part, rows_lent};
use lent::{Buffers, Machine};

// The book in the bytes. Of one with rules of at most 8 symbols the tables are built too.
pub fn book(run: &mut Run, bytes: &[u8], key: Key) {
    let judged = judge::judge(bytes);
    read(run, bytes, &judged);
    match judged {
        Ok(sound) if !fitting::is_short(&sound) => {}
        Ok(sound) => build(run, bytes, key, Ok(&sound)),
        Err(fault) => build(run, bytes, key, Err(fault.refused)),
    }
}

// The number, value and record of a read.
fn read(run: &mut Run, bytes: &[u8], judged: &Result<Sound<'_>, Fault>) {
    let got = reader::read(bytes);
    let (sound, answer) = match judged {
        Ok(sound) => (*sound, Ok(0)),
        Err(fault) => (Sound::nothing(bytes), Err(fault.refused)),
    };
    let number = run.differences.compare(&got.answer, answer, b"a read");
    run.read.one(number);
    if 64 < sound.rules() {
        run.large_sound.one();
    }
    if record::is_sharing(&got.book.picture) {
        run.sharing.one();
    }
    if judged.is_err_and(|fault| 1 < fault.amiss) {
        run.several.one();
    }
    let is_record = record::is_record(&sound, &got.book);
    run.differences.expect(is_record, b"record", b"a read");
}

// ---- a build

// Room for some rows, mostly for all, in buffers of odd lengths.
#[derive(Clone, Copy)]
struct Room {
    goto: usize,
    fall: usize,
    held: usize,
    live: usize,
    out: usize,
    ghost within: { (goto ≤ 16384) × (fall ≤ 64) × (held ≤ 64) × (live ≤ 256) × (out ≤ 256) },
}

impl Room {
    fn of(key: Key) -> Room {
        let rows = if key.is_first(50, 4) {
            key.pick(51, 20)
        } else {
            60
        };
        Room {
            goto: (256 * rows + key.pick(52, 600)).min(16384),
            fall: (rows + key.pick(53, 3)).min(64),
            held: (rows + key.pick(54, 3)).min(64),
            live: (4 * rows + key.pick(55, 12)).min(256),
            out: (4 * rows + key.pick(56, 12)).min(256),
        }
    }
}

// Each entry that is lent is 1 before.
fn build(run: &mut Run, bytes: &[u8], key: Key, judged: Result<&Sound<'_>, Refused>) {
    let room = Room::of(key);
    let mut goto = [1u16; 16384];
    let mut fall = [1u16; 64];
    let mut held = [1u8; 64];
    let mut live = [1u64; 256];
    let mut out = [1u64; 256];
    let mut buffers = Buffers {
        goto: &mut goto[..room.goto],
        fall: &mut fall[..room.fall],
        held: &mut held[..room.held],
        live: &mut live[..room.live],
        out: &mut out[..room.out],
    };
    let built = build::build(bytes, &mut buffers);
    let tables = buffers.machine(0);
    let (meant, is_same) = match judged {
        Ok(sound) => meant_of(&tables, sound),
        Err(refused) => (Err(refused), all_are(&tables, 0, 1)),
    };
    if let (Ok(rows), Ok(sound)) = (meant, judged) {
        run.rows.add(rows);
        if 64 < sound.rules() {
            run.large_built.one();
        }
    }
    run.differences.expect(is_same, b"tables", b"a build");
    let number = run.differences.compare(&built, meant, b"a build");
    run.built.one(number);
}

// Whether every entry, from a row on, is v.
fn all_are(tables: &Machine<'_>, row: usize, v: u64) -> bool {
    let row = row % 65536;
    are(tables.goto, 256 * row, v)
        && are(tables.fall, row, v)
        && are(tables.held, row, v)
        && are(tables.live, 4 * row, v)
        && are(tables.out, 4 * row, v)
}

// Whether every entry, from a place on, is v.
fn are<T: Copy + Into<u64>>(entries: &[T], from: usize, v: u64) -> bool {
    part(entries, from, entries.len()).iter().all(|x| {
        let entry: u64 = (*x).into();
        entry == v
    })
}

// The answer that is meant for a sound book, and whether the tables are as they are to be.
fn meant_of(tables: &Machine<'_>, sound: &Sound<'_>) -> (Result<usize, Refused>, bool) {
    let room = rows_lent(tables);
    let fits = Fits::of(sound);
    match Rows::of(&fits, room, tables.goto) {
        Some(rows) => {
            let count = rows.all().len();
            let is_same = rows.is_goto && is_rest(tables, &rows, &fits);
            (Ok(count), is_same && all_are(tables, count, 0))
        }
        None => {
            let refused = Refused::at(Reason::FewRows, room);
            (Err(refused), all_are(tables, 0, 0))
        }
    }
}

// Whether fall, held, live and out are right in each row.
fn is_rest(tables: &Machine<'_>, rows: &Rows, fits: &Fits) -> bool {
    rows.all().iter().enumerate().all(|(r, standing)| {
        rows.fall_of(standing) == Some(at(tables.fall, r)) && is_row(tables, fits, r, standing)
    })
}

// Whether row r has the held length and the sets of its standing.
fn is_row(tables: &Machine<'_>, fits: &Fits, r: usize, standing: &Standing) -> bool {
    let held = standing.held();
    let words = 4 * (r % 64);
    usize::from(at(tables.held, r)) == held
        && part(tables.live, words, words + 4) == standing.rules_at(held).words()
        && part(tables.out, words, words + 4) == standing.ended(fits).words()
}
