// Walks and tallies compared: the answer, and every place of the buffer lent.
ghost use Rattle.std.specs.Prelude.{◌≤◌};

use crate::folded::Sums;
use crate::report::Run;
use crate::search::{Found, Reports, Search};
use answers::Walked;
use drawn::{Key, Lost, Reason, Refused, first_bad, judge};
use lent::Machine;

// ---- a walk

// The places of the greatest report buffer, and what they hold before.
const PLACES: usize = 2048;

const OLD: u32 = 7;

// Walks the text with some room for reports, and compares with what is found there. Answers the number that is meant.
pub fn walk_text<S: Search>(
    run: &mut Run,
    tables: &Machine<'_>,
    how: &S,
    text: &[u8],
    key: Key,
) -> usize {
    let mut reports = Reports::none();
    let found = how.search(text, &mut reports);
    let places = places_for(key, found.map_or_else(|lost| lost.at, |_| reports.made()));
    let meant = meant_for(tables, text, found, &reports, places);
    let mut buffer = [OLD; PLACES];
    let walked = walk::walk(tables, text, &mut buffer[..places]);
    let pairs = if walked.is_ok() { reports.pairs() } else { &[] };
    let is_same = is_left(&buffer, pairs, OLD.into());
    run.differences.expect(is_same, b"report buffer", b"a walk");
    if let (Ok(walked), Ok(found)) = (walked, meant) {
        told(run, walked, found);
    }
    let meant = meant.map(|_| reports.made());
    run.differences.compare(&walked, meant, b"a walk")
}

fn told(run: &mut Run, walked: Walked, found: Found) {
    run.reports.add(walked.reports);
    run.falls.add(found.falls as usize);
    let is_same = walked.falls == found.falls;
    run.differences.expect(is_same, b"fallbacks", b"a walk");
    let is_same = walked.held == found.held;
    run.differences.expect(is_same, b"held length", b"a walk");
}

// Mostly more than are needed, and often just as many or one less.
fn places_for(key: Key, reports: usize) -> usize
    ensures { result ≤ 2048 }
{
    let needed = reports.wrapping_mul(2);
    let places = match key.pick(100, 4) {
        0 => needed,
        1 => needed.saturating_sub(1),
        _ => needed.wrapping_add(key.pick(101, 64)),
    };
    places.min(PLACES)
}

// The answer with so many places for reports.
fn meant_for(
    tables: &Machine<'_>,
    text: &[u8],
    found: Result<Found, Lost>,
    reports: &Reports,
    places: usize,
) -> Result<Found, Refused> {
    judge(tables, text)?;
    let found = found?;
    if places / 2 < reports.made() {
        return Err(Refused::at(Reason::FewReports, reports.made()));
    }
    Ok(found)
}

// Whether a buffer begins with what is meant, and has in the other places what was there before.
fn is_left<T: Copy + Into<u64>>(buffer: &[T], meant: &[u64], before: u64) -> bool {
    buffer.iter().enumerate().all(|(i, place)| {
        let place: u64 = (*place).into();
        place == meant.get(i).copied().unwrap_or(before)
    })
}

// ---- a tally

// The places of the greatest sums buffer, and what they hold before.
const MOST: usize = 262;

const BEFORE: u64 = 9;

// Tallies the profile with so many places of sums, at most MOST, and compares with the answer and the sums that are meant. Answers the number that is meant.
pub fn tally_text<S: Search>(
    run: &mut Run,
    tables: &Machine<'_>,
    how: &S,
    profile: &[u8],
    wanted: usize,
) -> usize {
    let places = wanted.min(MOST);
    let mut sums = Sums::none();
    let meant = tally_meant(tables, how, profile, places, &mut sums);
    run.again.add(sums.again);
    let mut buffer = [BEFORE; MOST];
    let tallied = tally::tally(tables, profile, &mut buffer[..places]);
    // The sums stand in the first 256 places of an accepted tally.
    let counts: &[u64] = if meant.is_ok() { &sums.counts } else { &[] };
    let is_same = is_left(&buffer, counts, BEFORE);
    run.differences.expect(is_same, b"sums", b"a tally");
    let meant = meant.map(|_| 0);
    run.differences.compare(&tallied, meant, b"a tally")
}

fn tally_meant<S: Search>(
    tables: &Machine<'_>,
    how: &S,
    profile: &[u8],
    places: usize,
    sums: &mut Sums,
) -> Result<(), Refused> {
    judge(tables, profile)?;
    if places < 256 {
        return Err(Refused::at(Reason::FewSums, places));
    }
    if let Some(from) = first_bad(profile) {
        return Err(Refused::at(Reason::BadLine, from));
    }
    Ok(sums.add_lines(how, profile)?)
}
