// Builds books and writes, a line each: the label, the number and the value of the answer, and how many entries of goto, fall, held, live
// and out are not 0 then; of an accepted book also its rows of held, fall, live and out, of the last two the four words of each row. Before each
// build every entry lent is 1. Then it widens old tables, and writes the number, the value and all words.
#![tactic(auto)]

ghost use Rattle.std.specs.Prelude.{◌≤◌};

use lent::{Buffers, Machine};
use numbered::Numbered;
use promised::BuildRefusal;

fn main() {
    book_a(b"\x52\x00\x02\x00a");
    book_x(b"\x50\x00\x1aabcdefghijklmnopqrstuvwxyz\x52\x00\x08\x00a\x01\x00\x00b\x01\x00");
    lend_rows(
        b"book y, 9 rows lent",
        b"\x50\x00\x1aabcdefghijklmnopqrstuvwxyz\x52\x00\x04\x01\x00\x001\x52\x00\x06\x00a\x01\x00\x00c\x52\x00\x04\x00a\x00b",
        9,
    );
    digits(
        b"\x50\x00\x100123456789abcdef\x50\x00\x0a0123456789\x52\x00\x04\x01\x00\x01\x01\x52\x00\x04\x01\x01\x00a",
    );
    many(b"190 rules, 9 rows lent", 190);
    many(b"256 rules, 9 rows lent", 256);
    many(b"257 rules, 9 rows lent", 257);
    refused();
    widened();
}

// The rule `a`: two rows.
fn book_a(bytes: &[u8]) {
    lend_rows(b"rule a, 9 rows lent", bytes, 9);
    lend_rows(b"rule a, 2 rows lent", bytes, 2);
    lend_rows(b"rule a, 1 row lent", bytes, 1);
    lend(b"rule a, no row lent", bytes, 255, 1, 4);
}

// Book x: nine rows.
fn book_x(bytes: &[u8]) {
    lend_rows(b"book x, 10 rows lent", bytes, 10);
    lend_rows(b"book x, 9 rows lent", bytes, 9);
    lend(b"book x, 8 rows lent", bytes, 2303, 9, 36);
    lend(b"book x, 9 rows lent but 8 of out", bytes, 2304, 9, 32);
    lend(
        b"book x, 9 rows lent but 8 and three words of out",
        bytes,
        2304,
        9,
        35,
    );
    lend(
        b"book x, 9 rows lent and three words of out",
        bytes,
        2304,
        9,
        39,
    );
}

// A hexadecimal and a decimal digit; a decimal digit and a: five rows, as a digit opens both rules and a letter the first.
fn digits(bytes: &[u8]) {
    lend_rows(b"digits, 9 rows lent", bytes, 9);
    lend_rows(b"digits, 4 rows lent", bytes, 4);
}

// So many rules of one byte each, in turn a, b and c: a row for each of the three, in which every third rule is live and ends.
fn many(label: &[u8], count: usize)
    requires { count ≤ 257 }
{
    let mut bytes = [0u8; 1285];
    for k in 0..count {
        bytes[5 * k] = 0x52;
        bytes[5 * k + 2] = 2;
        bytes[5 * k + 4] = b'a' + (k % 3) as u8;
    }
    lend_rows(label, &bytes[..5 * count], 9);
}

// Books that the reader refuses.
fn refused() {
    lend_rows(b"empty book", b"", 1);
    lend_rows(b"cut header", b"\x52\x00", 1);
    lend_rows(b"other tag", b"\x52\x00\x02\x00a\x51\x00\x00", 1);
    lend_rows(b"empty picture", b"\x50\x00\x00", 1);
    lend_rows(b"odd rule", b"\x52\x00\x03\x02a\x00", 1);
    lend_rows(b"kind 2", b"\x52\x00\x02\x02a", 1);
    lend_rows(
        b"no picture yet, then kind 2",
        b"\x52\x00\x06\x00a\x01\x00\x02a",
        1,
    );
}

// Old live of two rows, each 5, and old out of three, each 6: with room to spare, with just the room, and with too little for live, for out and for both.
fn widened() {
    widen_into(b"widened into 13 and 14 words", 13, 14);
    widen_into(b"widened into 8 and 12 words", 8, 12);
    widen_into(b"widened into 7 and 12 words", 7, 12);
    widen_into(b"widened into 8 and 11 words", 8, 11);
    widen_into(b"widened into 7 and 11 words", 7, 11);
}

// Widens into so many words of live and of out, each of which is 1 before.
fn widen_into(label: &[u8], lives: usize, outs: usize)
    requires { (lives ≤ 16) × (outs ≤ 16) }
{
    let mut live = [1u64; 16];
    let mut out = [1u64; 16];
    let answer = widen::widen(&[5; 2], &[6; 3], &mut live[..lives], &mut out[..outs]);
    write_answer(label, &answer);
    io::write_all(1, b"\nlive");
    sets(&live[..lives], 4);
    io::write_all(1, b"out");
    sets(&out[..outs], 4);
}

// Builds with room for so many rows.
fn lend_rows(label: &[u8], bytes: &[u8], rows: usize)
    requires { rows ≤ 10 }
{
    lend(label, bytes, 256 * rows, rows, 4 * rows);
}

// Builds with so many entries of goto, `outs` words of out, and `rows` of the other tables.
fn lend(label: &[u8], bytes: &[u8], entries: usize, rows: usize, outs: usize)
    requires { (entries ≤ 2560) × (rows ≤ 10) × (outs ≤ 40) }
{
    let mut goto = [1u16; 2560];
    let mut fall = [1u16; 10];
    let mut held = [1u8; 10];
    let mut live = [1u64; 40];
    let mut out = [1u64; 40];
    let mut buffers = Buffers {
        goto: &mut goto[..entries],
        fall: &mut fall[..rows],
        held: &mut held[..rows],
        live: &mut live[..4 * rows],
        out: &mut out[..outs],
    };
    let built = build::build(bytes, &mut buffers);
    write(label, built, &buffers.machine(0));
}

// ---- what is written

fn write(label: &[u8], built: Result<usize, BuildRefusal>, tables: &Machine<'_>) {
    write_answer(label, &built);
    io::write_all(1, b" |");
    print(some(tables.goto));
    print(some(tables.fall));
    print(some(tables.held));
    print(some(tables.live));
    print(some(tables.out));
    io::write_all(1, b"\n");
    if let Ok(rows) = built {
        io::write_all(1, b"held");
        row(tables.held, rows);
        io::write_all(1, b"fall");
        row(tables.fall, rows);
        io::write_all(1, b"live");
        sets(tables.live, rows);
        io::write_all(1, b"out");
        sets(tables.out, rows);
    }
}

fn write_answer<A: Numbered>(label: &[u8], answer: &A) {
    io::write_all(1, label);
    io::write_all(1, b":");
    print(answer.number() as u64);
    print(answer.value());
}

// By hand, since `print!` takes the runtime, which would go through every function here; the same as in `book_cases`, which says why.
fn print(n: u64) {
    io::write_all(1, b" ");
    io::print_decimal(1, n);
}

// How many entries are not 0.
fn some<T: Copy + Default + PartialEq>(entries: &[T]) -> u64 {
    entries.iter().filter(|x| **x != T::default()).count() as u64
}

// The first entries, in a line.
fn row<T: Copy + Into<u64>>(entries: &[T], rows: usize) {
    for x in entries.iter().take(rows) {
        print((*x).into());
    }
    io::write_all(1, b"\n");
}

// The first sets, in a line: four words each, with a comma between two sets.
fn sets(words: &[u64], rows: usize) {
    for (i, set) in words.chunks(4).take(rows).enumerate() {
        if i != 0 {
            io::write_all(1, b",");
        }
        for word in set {
            print(*word);
        }
    }
    io::write_all(1, b"\n");
}
