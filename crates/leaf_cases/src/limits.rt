// A record of 1,024 profiles and one more; records about the limit of the total, and from nowhere; and what is refused first. The book is the rule `a`, `b`,
// and its tables are read themselves.
use crate::compare::{self, LIMIT};
use crate::report::Run;
use drawn::{NO_ENTRY, Tables, part};
use leaf_totals::LeafTotals;
use lent::Machine;

// The text is a, over and over, but for its first 10 bytes: they are a profile, which counts 5. With one byte more its second line is bad.
pub fn all(run: &mut Run, text: &mut [u8; 1048577], book: &[u8]) {
    text[..10].copy_from_slice(b"b;ab 3\nb 2");
    if let Some(tables) = Tables::built(book) {
        full(run, tables.machine(), part(text, 0, 10));
        about(run, tables.machine(), part(text, 0, 10));
        refused(run, &tables, text);
    }
}

// The last of 1,025 profiles is refused, and the record stays.
fn full(run: &mut Run, tables: Machine<'_>, profile: &[u8]) {
    let mut record = LeafTotals::empty();
    for _ in 0..1025 {
        let added = compare::add(run, &tables, &tables, profile, record);
        run.one_record.one(added.number);
        record = added.record;
    }
}

// A record with this total, 1000 unnamed and so many profiles.
fn record(first: u64, profiles: usize) -> LeafTotals {
    let mut totals = [0; 256];
    totals[0] = first;
    LeafTotals {
        totals,
        unnamed: 1000,
        profiles,
    }
}

// A profile added to a record, and the shares of what that is then.
fn case(run: &mut Run, tables: Machine<'_>, profile: &[u8], old: LeafTotals) {
    let added = compare::add(run, &tables, &tables, profile, old);
    run.limits.one(added.number);
    let number = compare::share(run, &added.record);
    run.limit_shares.one(number);
}

fn about(run: &mut Run, tables: Machine<'_>, profile: &[u8]) {
    // The profile reaches the limit, and passes it by one.
    case(run, tables, profile, record(LIMIT - 1005, 7));
    case(run, tables, profile, record(LIMIT - 1004, 7));
    // No line, at the limit and past it.
    case(run, tables, b"", record(LIMIT - 1000, 1023));
    case(run, tables, b"", record(LIMIT - 999, 7));
    // Numbers from nowhere: the greatest, and two that wrap to 0.
    let mut odd = record(u64::MAX, 7);
    odd.totals = [u64::MAX; 256];
    odd.unnamed = u64::MAX;
    case(run, tables, b"", odd);
    odd = record(9223372036854775808, 7);
    odd.unnamed = 9223372036854775808;
    case(run, tables, b"", odd);
    // Nothing.
    odd = record(0, 7);
    odd.unnamed = 0;
    case(run, tables, b"", odd);
    // Full.
    case(run, tables, profile, record(LIMIT - 999, 1024));
    case(run, tables, profile, record(LIMIT - 999, usize::MAX));
}

// Past the limit, each with fewer other reasons to be refused; the last is accepted. In the last three row 0 has no entry for b: the leaf of the second line
// is lost, and so would be the other frame of the first.
fn refused(run: &mut Run, tables: &Tables, text: &[u8; 1048577]) {
    let past = record(LIMIT - 999, 7);
    let mut other = *tables;
    other.rows = 0;
    case(run, other.machine(), text, record(LIMIT - 999, 1024));
    case(run, other.machine(), text, past);
    let longest = part(text, 0, 1048576);
    case(run, other.machine(), longest, past);
    case(run, tables.machine(), longest, past);
    other = *tables;
    other.goto[usize::from(b'b')] = NO_ENTRY;
    case(run, other.machine(), part(text, 0, 11), past);
    case(run, other.machine(), part(text, 0, 10), past);
    case(run, other.machine(), part(text, 0, 6), record(0, 7));
}
