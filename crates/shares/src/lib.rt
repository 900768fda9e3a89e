// Shares of a total in thousandths: each rounded down, then the missing thousandths one each to the largest remainders.
#![tactic(auto)]

ghost use Rattle.std.specs.Prelude.{◌≡◌, ◌+◌, min, ◌||◌, ◌&&◌, ◌≤◌, ◌<◌, ltb, eqb, MatchResult};
ghost use Rattle.shares.specs.Ranks.{rank};
ghost use Rattle.book.specs.Content.{table};
ghost use Rattle.shares.specs.Shares.{all_places, limit, floor_of, remainder_of, missing, share_in, amount_at, total_of, ToShare, shares_of, number, value};

use book::Book;
use numbered::Numbered;

// The largest total that is shared.
pub const LIMIT: u64 = 9007199254740991;

// 256 families, and unnamed last.
pub const PLACES: usize = Book::RULES + 1;

// The one refusal: the total is past the limit.
#[derive(Clone, Copy)]
pub struct Past;

// The answer beside the shares, which are all 0 where it is a refusal (paper).
#[derive(Drop)]
pub struct Shares {
    pub answer: Result<(), Past>,
    pub parts: [u16; PLACES],
}

impl Numbered for Past {
    ghost number_is = { number };

    ghost value_is = { value };

    fn number(&self) -> usize {
        20
    }

    fn value(&self) -> u64 {
        LIMIT
    }
}

// The sum of the totals: it is made only up to the limit, so that it never wraps.
#[tactic(auto, using(crate::proofs::Below::sum_none, crate::proofs::Below::sum_next, crate::proofs::Wholes::term_within))]
fn within(totals: &[u64; PLACES]) -> Result<u64, Past>
    ensures { MatchResult result (λ sum. (sum ≡ total_of totals.now) × (sum ≤ limit)) (λ past. limit < total_of totals.now) }
{
    let mut sum = 0;
    for t in totals {
        if LIMIT - sum < *t {
            return Err(Past);
        }
        sum += *t;
    }
    Ok(sum)
}

// The same as a number, as its promise is of any totals: LIMIT + 1 where it is more.
pub fn total(totals: &[u64; PLACES]) -> u64
    ensures { result ≡ min (total_of totals.now) (limit + 1) }
{
    within(totals).unwrap_or(LIMIT + 1)
}

// Whether j with the remainder `other` stands before i with the remainder `own`: the larger first, of equal ones the lower number.
fn stands_before(other: u64, j: usize, own: u64, i: usize) -> bool
    ensures { result ≡ (ltb own other || (eqb other own && ltb j i)) }
{
    (own, j) < (other, i)
}

// Totals that are shared, and what they add to: not 0, and within the limit. Each method that is given a place asks that there is one, as a
// type for a place would only wrap the index of each loop.
#[derive(Clone, Copy)]
struct Whole<'a> {
    totals: &'a [u64; PLACES],
    sum: u64,
    ghost to_share: { ToShare totals.now sum },
}

impl Whole<'_> {
    // The thousandths of total i in the whole, rounded down.
    #[tactic(auto, using(crate::proofs::Wholes::total_most))]
    fn floor(&self, i: usize) -> u64
        requires { i < all_places }
        ensures { result ≡ floor_of self.now.sum (amount_at self.now.totals.now i) }
    {
        1000 * self.totals[i] / self.sum
    }

    // What rounding down leaves of them, in parts of the whole.
    #[tactic(auto, using(crate::proofs::Wholes::total_most))]
    fn remainder(&self, i: usize) -> u64
        requires { i < all_places }
        ensures { result ≡ remainder_of self.now.sum (amount_at self.now.totals.now i) }
    {
        1000 * self.totals[i] % self.sum
    }

    // How many thousandths are missing once each share is rounded down.
    #[tactic(auto, using(crate::proofs::Below::sum_none))]
    fn count_missing(&self) -> u64
        ensures { result ≡ missing (amount_at self.now.totals.now) all_places self.now.sum }
    {
        let mut left = 1000;
        // By number, as the sums of the definition are of places.
        for i in 0..PLACES {
            left -= self.floor(i);
        }
        left
    }

    // How many stand before i.
    #[tactic(auto, using(crate::proofs::Below::sum_none, crate::proofs::Below::sum_next))]
    fn count_before(&self, i: usize) -> u64
        requires { i < all_places }
        ensures { result ≡ rank (λ j. remainder_of self.now.sum (amount_at self.now.totals.now j)) all_places i }
    {
        let own = self.remainder(i);
        let mut n = 0;
        // By number, as a rank is that of a place.
        for j in 0..PLACES {
            if stands_before(self.remainder(j), j, own, i) {
                n += 1;
            }
        }
        n
    }

    // The share of i, where so many thousandths are missing.
    #[tactic(auto, using(crate::proofs::Wholes::floor_most))]
    fn part(&self, lacking: u64, i: usize) -> u16
        requires { (lacking ≡ missing (amount_at self.now.totals.now) all_places self.now.sum) × (i < all_places) }
        ensures { result ≡ share_in (amount_at self.now.totals.now) all_places self.now.sum i }
    {
        let down = self.floor(i) as u16;
        down + u16::from(self.count_before(i) < lacking)
    }

    // The shares.
    fn share_out(&self) -> [u16; PLACES]
        ensures { result ≡ table all_places (share_in (amount_at self.now.totals.now) all_places self.now.sum) }
    {
        let lacking = self.count_missing();
        let mut parts = [0; PLACES];
        for i in 0..PLACES {
            parts[i] = self.part(lacking, i);
        }
        parts
    }
}

// The share of each total in thousandths: they add to 1,000, or are all 0 where there is nothing to share or it is past the limit.
pub fn share(totals: &[u64; PLACES]) -> Shares
    ensures { result ≡ shares_of totals.now }
{
    let none = [0; PLACES];
    match within(totals) {
        Err(past) => Shares {
            answer: Err(past),
            parts: none,
        },
        Ok(0) => Shares {
            answer: Ok(()),
            parts: none,
        },
        Ok(sum) => Shares {
            answer: Ok(()),
            parts: Whole { totals, sum }.share_out(),
        },
    }
}
