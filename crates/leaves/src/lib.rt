// Leaf totals per family, over up to 1,024 profiles: the record, a profile added to it, and its shares.
#![tactic(auto)]

ghost use Rattle.std.specs.Prelude.{◌≡◌, ◌≤◌, length};
ghost use Rattle.book.specs.Limits.{most_bytes};
ghost use Rattle.lent.specs.Lent.{tables_of};
ghost use Rattle.shares.specs.Shares.{amount_at};
ghost use Rattle.leaves.specs.Totals.{with_parts, add_of, shares_in};
ghost use Rattle.leaves.specs.Steps.{TakesParts, counted_lines, grown_by};

use answers::Damaged;
use book::Book;
use leaf::Leaf;
use leaf_totals::{AddRefusal, LeafTotals, PROFILES};
use lent::Machine;
use lines::LF;
use shares::{LIMIT, PLACES, Shares};

// The answer beside the record, which a refused profile hands back too (paper).
#[derive(Clone, Copy)]
pub struct Handed {
    pub answer: Result<(), AddRefusal>,
    pub back: LeafTotals,
}

// ---- a profile

// The counts of a profile's lines, each at its leaf's place. By offsets, as `lines::find` says.
fn count_lines(tables: &Machine, profile: &[u8]) -> Result<[u64; PLACES], Damaged>
    requires { length profile.now ≤ most_bytes }
    ensures { result ≡ counted_lines (tables_of tables.now) tables.now.rows profile.now }
{
    let mut parts: [u64; PLACES] = [0; PLACES];
    let mut at = 0;
    while at < profile.len() {
        let end = lines::find(profile, at, LF);
        let Leaf { place, count } = leaf::of_line(tables, &profile[at..end]).map_err(
            |damage| Damaged { at: at + damage.at },
        )?;
        parts[place] += count;
        at = end + 1;
    }
    Ok(parts)
}

// ---- the record

// The record with the parts of one profile more.
fn with_parts(old: LeafTotals, parts: &[u64; PLACES]) -> LeafTotals
    requires { TakesParts old parts.now }
    ensures { result ≡ with_parts old (amount_at parts.now) }
{
    let mut totals: [u64; Book::RULES] = [0; Book::RULES];
    for i in 0..Book::RULES {
        totals[i] = old.totals[i] + parts[i];
    }
    LeafTotals {
        totals,
        unnamed: old.unnamed + parts[Book::RULES],
        profiles: old.profiles + 1,
    }
}

// The record with a profile more, where it is not full and the total stays within the limit.
#[tactic(auto, using(crate::proofs::Answers::grown_past, crate::proofs::Answers::grown_within, crate::proofs::Records::joins), unfolding(crate::specs::Totals::add_answer))]
fn grown(tables: &Machine, profile: &[u8], old: LeafTotals) -> Result<LeafTotals, AddRefusal>
    ensures { result ≡ grown_by (tables_of tables.now) tables.now.rows profile.now old }
{
    if PROFILES <= old.profiles {
        return Err(AddRefusal::Full);
    }
    if Book::TEXT < profile.len() {
        return Err(AddRefusal::TooLong);
    }
    if !tables.has_rows() {
        return Err(AddRefusal::BadRows { rows: tables.rows });
    }
    lines::check(profile)?;
    let parts = count_lines(tables, profile)?;
    let before = shares::total(&leaf_totals::totals_of(old));
    let more = shares::total(&parts);
    if LIMIT < before + more {
        return Err(AddRefusal::Past);
    }
    Ok(with_parts(old, &parts))
}

// ---- what is called

// Adds a profile to the record. A refusal hands the record back as it was.
#[tactic(auto, using(crate::proofs::Answers::handed_on, crate::proofs::Answers::handed_back))]
pub fn add(tables: &Machine, profile: &[u8], old: LeafTotals) -> Handed
    ensures { result ≡ add_of (tables_of tables.now) tables.now.rows profile.now old }
{
    match grown(tables, profile, old) {
        Ok(back) => Handed {
            answer: Ok(()),
            back,
        },
        Err(why) => Handed {
            answer: Err(why),
            back: old,
        },
    }
}

// The shares of a record in thousandths, unnamed last.
pub fn shares_of(old: LeafTotals) -> Shares
    ensures { result ≡ shares_in old }
{
    shares::share(&leaf_totals::totals_of(old))
}
