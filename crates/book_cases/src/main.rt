// Reads books and writes, a line each: the label, the number and the value of the answer; then what the record holds: the pictures, the
// rules, the symbols in all, their sum over all places, and the pairs of a picture and a member.
#![tactic(auto)]

ghost use Rattle.std.specs.Prelude.{◌<◌};

use book::Book;
use numbered::Numbered;

// The cases in their groups.
fn main() {
    sound_books();
    sharing();
    field_refusals();
    picture_refusals();
    rule_refusals();
    symbol_refusals();
    two_faults();
    several_symbols();
    rule_limits();
    rule_counts();
    picture_counts();
    largest_book();
}

// ---- what is written

fn show(label: &[u8], bytes: &[u8]) {
    let got = reader::read(bytes);
    let book = &got.book;
    io::write_all(1, label);
    print(got.answer.number() as u64);
    print(got.answer.value());
    io::write_all(1, b" |");
    print(book.pictures.into());
    print(book.rules as u64);
    print(sum_of(&book.lengths));
    print(sum_of(&book.symbols));
    print(members(book) as u64);
    io::write_all(1, b"\n");
}

// By hand, since `print!` takes the runtime, which would go through every function here. The same two lines are in `build_cases`: a crate that both stand on
// were no plainer.
fn print(n: u64) {
    io::write_all(1, b" ");
    io::print_decimal(1, n);
}

// Sums here stay small; one that did not would wrap.
fn sum_of<T: Copy + Into<u64>>(numbers: &[T]) -> u64 {
    let mut sum = 0u64;
    for n in numbers {
        sum = sum.wrapping_add((*n).into());
    }
    sum
}

// How many pairs of a picture and a byte fit.
fn members(book: &Book) -> usize {
    let mut n = 0usize;
    for byte in 0..=255u8 {
        for p in 0..16 {
            if book.fits(byte, 256 + p) {
                n = n.wrapping_add(1);
            }
        }
    }
    n
}

// ---- the books

fn sound_books() {
    show(b"one rule", b"\x52\x00\x02\x00a");
    show(
        b"book x",
        b"\x50\x00\x1aabcdefghijklmnopqrstuvwxyz\x52\x00\x08\x00a\x01\x00\x00b\x01\x00",
    );
    show(
        b"book y",
        b"\x50\x00\x1aabcdefghijklmnopqrstuvwxyz\x52\x00\x04\x01\x00\x001\x52\x00\x06\x00a\x01\x00\x00c\x52\x00\x04\x00a\x00b",
    );
    show(b"two equal rules", b"\x52\x00\x02\x00a\x52\x00\x02\x00a");
    show(
        b"picture after a rule",
        b"\x52\x00\x02\x00a\x50\x00\x01a\x52\x00\x02\x01\x00",
    );
}

// Pictures that share bytes.
fn sharing() {
    show(
        b"equal pictures",
        b"\x50\x00\x01a\x50\x00\x01a\x52\x00\x04\x01\x00\x01\x01",
    );
    show(
        b"third shares with the first",
        b"\x50\x00\x01a\x50\x00\x01b\x50\x00\x02Aa\x52\x00\x02\x01\x02",
    );
    show(
        b"decimal and hexadecimal digits",
        b"\x50\x00\x0a0123456789\x50\x00\x100123456789abcdef\x52\x00\x04\x01\x00\x01\x01",
    );
    show(
        b"hexadecimal and decimal digits",
        b"\x50\x00\x100123456789abcdef\x50\x00\x0a0123456789\x52\x00\x04\x01\x00\x01\x01",
    );
}

// 1, 2 and 9.
fn field_refusals() {
    show(b"empty", b"");
    show(b"a picture and no rule", b"\x50\x00\x01a");
    show(b"cut header", b"\x52");
    show(b"cut length", b"\x52\x00");
    show(b"cut body", b"\x52\x00\x01");
    show(b"cut after a rule", b"\x52\x00\x02\x00a\x52\x00");
    show(b"long body by its high byte", b"\x52\x01\x00\x00a");
    show(b"other tag", b"\x51\x00\x00");
    show(b"other tag after a rule", b"\x52\x00\x02\x00a\x00\x00\x00");
}

// 3.
fn picture_refusals() {
    show(b"picture empty", b"\x50\x00\x00");
    show(b"picture falls", b"\x50\x00\x02ba");
    show(b"picture twice", b"\x50\x00\x02aa");
    show(b"picture falls at its end", b"\x50\x00\x03aca");
    show(
        b"empty picture after a rule",
        b"\x52\x00\x02\x00a\x50\x00\x00",
    );
}

// 6.
fn rule_refusals() {
    show(b"rule empty", b"\x52\x00\x00");
    show(b"rule odd", b"\x52\x00\x01\x00");
    show(
        b"rule odd after a rule",
        b"\x52\x00\x02\x00a\x52\x00\x03\x00a\x00",
    );
}

// 17 and 18.
fn symbol_refusals() {
    show(b"kind 2", b"\x52\x00\x02\x02\x00");
    show(
        b"kind 255 in the second symbol",
        b"\x52\x00\x04\x00a\xff\x00",
    );
    show(b"no picture yet", b"\x52\x00\x02\x01\x00");
    show(
        b"picture named too early",
        b"\x50\x00\x01a\x52\x00\x02\x01\x01\x50\x00\x01b",
    );
    show(
        b"picture stands later",
        b"\x52\x00\x02\x01\x00\x50\x00\x01a",
    );
    let kind_2 = rule_ending(2);
    show(b"kind 2 in the 64th symbol", &kind_2);
    let early = rule_ending(1);
    show(b"no picture yet in the 64th symbol", &early);
}

// Books with two faults at once, of which the first in the order of judging counts.
fn two_faults() {
    show(b"other tag, body cut", b"\x51\x00\x01");
    show(b"picture falls and shares", b"\x50\x00\x01a\x50\x00\x02ba");
    show(b"rule odd, of kind 2", b"\x52\x00\x03\x02\x00\x00");
    show(b"two fields at fault", b"\x50\x00\x00\x52\x00\x00");
    show(b"no rule, last field cut", b"\x50\x00\x01a\x50");
    let odd = rule_of(129);
    show(b"rule of 129 bytes", &odd[0..132]);
    let mut unknown = rule_of(130);
    unknown[3] = 2;
    show(b"rule of 130 bytes, of kind 2", &unknown);
    let empty = seventeen(0, 16);
    show(b"17th picture empty", &empty[0..67]);
    let sharing = seventeen(1, 0);
    show(b"17th picture shares", &sharing[0..68]);
    let none = too_many(0);
    show(b"257th rule empty", &none[0..1283]);
    let long = too_many(130);
    show(b"257th rule of 130 bytes", &long);
}

// Rules with several symbols at fault: the first of them counts.
fn several_symbols() {
    show(
        b"kind 2, then no picture yet",
        b"\x52\x00\x06\x00a\x02\x00\x01\x00",
    );
    show(
        b"no picture yet, then kind 2",
        b"\x52\x00\x06\x00a\x01\x00\x02\x00",
    );
    show(b"kinds 2 and 3", b"\x52\x00\x04\x02\x00\x03\x00");
    show(
        b"pictures 1 and 2, none of them yet",
        b"\x50\x00\x01a\x52\x00\x08\x01\x00\x00b\x01\x01\x01\x02",
    );
    show(
        b"two rules with kind 2",
        b"\x52\x00\x02\x00a\x52\x00\x04\x00a\x02b\x52\x00\x02\x02a",
    );
    show(b"kind 2, next field cut", b"\x52\x00\x02\x02\x00\x52");
    let mut rules = too_many(130);
    rules[1283] = 2;
    show(b"257th rule of 130 bytes, of kind 2", &rules);
}

fn rule_limits() {
    let sound = rule_of(128);
    show(b"rule of 128 bytes", &sound[0..131]);
    let long = rule_of(130);
    show(b"rule of 130 bytes", &long);
}

fn rule_counts() {
    let rules = too_many(2);
    show(b"64 rules", &rules[0..320]);
    show(b"65 rules", &rules[0..325]);
    show(b"190 rules", &rules[0..950]);
    show(b"256 rules", &rules[0..1280]);
    show(b"257 rules", &rules[0..1285]);
}

fn picture_counts() {
    let pictures = seventeen(1, 16);
    show(b"17 pictures", &pictures[0..68]);
    let mut sixteen = pictures;
    sixteen[64] = 0x52;
    sixteen[66] = 2;
    sixteen[67] = 1;
    sixteen[68] = 15;
    show(b"16 pictures and a rule", &sixteen);
}

fn largest_book() {
    let one = full_picture();
    show(b"picture of 256 bytes", &one);
    let book = largest();
    show(b"largest", &book[0..37680]);
    show(b"largest and a rule", &book);
}

// ---- books too long to write out

// Every `step` places from `from` on, before `to`: `first`, and each time `more` added.
fn put(a: &mut [u8], from: usize, to: usize, step: usize, first: u8, more: u8)
    requires { 0 < step }
{
    let end = to.min(a.len());
    let mut value = first;
    for places in a[from.min(end)..end].chunks_mut(step) {
        places[0] = value;
        value = value.wrapping_add(more);
    }
}

// A rule with a body of `size` bytes, pairs of 0 and the byte a.
fn rule_of(size: u8) -> [u8; 133] {
    let mut a = [0u8; 133];
    a[0] = 0x52;
    a[2] = size;
    put(&mut a, 4, 133, 2, 0x61, 0);
    a
}

// A rule of 64 symbols, the byte a but for the last, which is of the kind.
fn rule_ending(kind: u8) -> [u8; 131] {
    let mut a = [0u8; 131];
    a[0] = 0x52;
    a[2] = 128;
    put(&mut a, 4, 131, 2, 0x61, 0);
    a[129] = kind;
    a
}

// 257 rules of the byte a, the last with a body of `size` bytes, and room for 130.
fn too_many(size: u8) -> [u8; 1413] {
    let mut a = [0u8; 1413];
    put(&mut a, 0, 1285, 5, 0x52, 0);
    put(&mut a, 2, 1285, 5, 2, 0);
    put(&mut a, 4, 1285, 5, 0x61, 0);
    a[1282] = size;
    a
}

// 17 pictures of one byte each, picture k of the byte k, but the last of `size` bytes from `member` on; and room for a rule in its place.
fn seventeen(size: u8, member: u8) -> [u8; 69] {
    let mut a = [0u8; 69];
    put(&mut a, 0, 68, 4, 0x50, 0);
    put(&mut a, 2, 68, 4, 1, 0);
    put(&mut a, 3, 68, 4, 0, 1);
    a[66] = size;
    a[67] = member;
    a
}

// A picture of all bytes, and a rule that is this picture.
fn full_picture() -> [u8; 264] {
    let mut a = [0u8; 264];
    a[0] = 0x50;
    a[1] = 1;
    put(&mut a, 3, 259, 1, 0, 1);
    a[259] = 0x52;
    a[261] = 2;
    a[262] = 1;
    a
}

// 16 pictures of all bytes, 256 rules of 64 symbols, symbol j picture j % 16; and the header of one rule more.
fn largest() -> [u8; 37683] {
    let mut a = [0u8; 37683];
    put_pictures(&mut a);
    put_rules(&mut a);
    a[37680] = 0x52;
    a
}

// 259 bytes from one picture to the next.
fn put_pictures(a: &mut [u8]) {
    put(a, 0, 4144, 259, 0x50, 0);
    put(a, 1, 4144, 259, 1, 0);
    for p in 0..16 {
        put(a, 259 * p + 3, 259 * p + 259, 1, 0, 1);
    }
}

// 131 bytes from one rule to the next, after the 4,144 of the pictures.
fn put_rules(a: &mut [u8]) {
    put(a, 4144, 37680, 131, 0x52, 0);
    put(a, 4146, 37680, 131, 128, 0);
    for j in 0..64u8 {
        let place = 4147 + 2 * usize::from(j);
        put(a, place, 37680, 131, 1, 0);
        put(a, place + 1, 37680, 131, j % 16, 0);
    }
}
