// Records compared: the answer, and every total, before and after; and the shares of a record. Sums here stay small; one that did not would wrap.
use crate::plain::{Families, Parts};
use crate::report::Run;
use drawn::{Reason, Refused, judge};
use leaf_totals::LeafTotals;
use lent::Machine;

pub const LIMIT: u64 = 9007199254740991;

// The totals of a record, unnamed last.
fn all_of(record: &LeafTotals) -> [u64; 257] {
    let mut all = [record.unnamed; 257];
    all[..256].copy_from_slice(&record.totals);
    all
}

// The sum of the totals; nothing where it is above the limit.
fn whole_of(totals: &[u64; 257]) -> Option<u64> {
    let mut sum = 0u64;
    for total in totals {
        sum = sum.checked_add(*total).filter(|sum| *sum <= LIMIT)?;
    }
    Some(sum)
}

// ---- a profile

// The answer that is meant. What the profile adds goes to the parts.
fn answer_for<F: Families>(
    tables: &Machine<'_>,
    how: &F,
    profile: &[u8],
    old: &LeafTotals,
    parts: &mut Parts,
) -> Result<(), Refused> {
    if 1023 < old.profiles {
        return Err(Refused::at(Reason::Full, 1024));
    }
    judge(tables, profile)?;
    parts.add_lines(how, profile)?;
    let whole = whole_of(&all_of(old)).ok_or(past())?;
    if LIMIT < whole.wrapping_add(parts.counts) {
        return Err(past());
    }
    Ok(())
}

fn past() -> Refused {
    Refused::at(Reason::Past, LIMIT as usize)
}

// Whether a record is the one before, with the parts where there are any.
fn is_record(new: &LeafTotals, old: &LeafTotals, parts: Option<&Parts>) -> bool {
    let before = all_of(old);
    let mut profiles = old.profiles;
    let mut meant = before;
    if let Some(parts) = parts {
        profiles = profiles.wrapping_add(1);
        for i in 0..257 {
            meant[i] = before[i].wrapping_add(parts.totals[i]);
        }
    }
    all_of(new) == meant && new.profiles == profiles
}

// The number that is meant, and the record after.
#[derive(Clone, Copy)]
pub struct Added {
    pub number: usize,
    pub record: LeafTotals,
}

// Adds the profile to the record, and compares with what is meant; the parts have the counts of all lines between them.
pub fn add<F: Families>(
    run: &mut Run,
    tables: &Machine<'_>,
    how: &F,
    profile: &[u8],
    old: LeafTotals,
) -> Added {
    let mut parts = Parts::none();
    let answer = answer_for(tables, how, profile, &old, &mut parts);
    let handed = leaves::add(tables, profile, old);
    let meant = answer.is_ok().then_some(&parts);
    let is_record = is_record(&handed.back, &old, meant);
    run.differences.expect(is_record, b"record", b"a profile");
    let is_whole = whole_of(&parts.totals) == Some(parts.counts);
    run.differences.expect(is_whole, b"parts", b"a profile");
    run.leaves.add(0, parts.named);
    run.leaves.add(1, parts.unnamed);
    let number = run
        .differences
        .compare(&handed.answer, answer.map(|_| 0), b"a profile");
    Added {
        number,
        record: handed.back,
    }
}

// ---- shares

// The thousandths of each total, rounded down, and the remainders that are left.
#[derive(Clone, Copy)]
struct Dealt {
    parts: [u64; 257],
    rest: [Option<u64>; 257],
}

impl Dealt {
    fn down(totals: &[u64; 257], whole: u64) -> Dealt {
        let mut dealt = Dealt {
            parts: [0; 257],
            rest: [None; 257],
        };
        if whole != 0 {
            for i in 0..257 {
                let t = 1000 * (totals[i] % 9007199254740992);
                dealt.parts[i] = t / whole;
                dealt.rest[i] = Some(t % whole);
            }
        }
        dealt
    }

    // One thousandth more for the first place with the largest remainder, which is none then.
    fn give(&mut self) {
        let mut best = 0;
        let mut most = None;
        for (i, rest) in self.rest.iter().enumerate() {
            if most < *rest {
                best = i;
                most = *rest;
            }
        }
        self.rest[best] = None;
        self.parts[best] = self.parts[best].wrapping_add(1);
    }

    fn sum(&self) -> u64 {
        whole_of(&self.parts).unwrap_or(LIMIT)
    }
}

// The shares of the record compared with those that are meant: the thousandths that are missing go one each to the largest remainders that are left. Answers
// the number that is meant.
pub fn share(run: &mut Run, record: &LeafTotals) -> usize {
    let totals = all_of(record);
    let whole = whole_of(&totals);
    let sum: u64 = match whole {
        None | Some(0) => 0,
        Some(_) => 1000,
    };
    let mut dealt = Dealt::down(&totals, whole.unwrap_or(0));
    let missing = sum.saturating_sub(dealt.sum());
    for _ in 0..missing {
        dealt.give();
    }
    run.more.add(missing as usize);
    let got = leaves::shares_of(*record);
    let is_same = is_same(&got.parts, &dealt.parts) && dealt.sum() == sum;
    run.differences.expect(is_same, b"parts", b"shares");
    let meant = whole.map_or(Err(past()), |_| Ok(0));
    run.differences.compare(&got.answer, meant, b"shares")
}

fn is_same(parts: &[u16; 257], meant: &[u64; 257]) -> bool {
    parts
        .iter()
        .zip(meant)
        .all(|(part, meant)| u64::from(*part) == *meant)
}
