// The leaf of a line: its last frame is walked over tables, and the line's count goes to the lowest rule that fits the whole of it, or to unnamed.
#![tactic(auto)]

ghost use Rattle.std.specs.Prelude.{◌≡◌, ◌≤◌, ◌<◌, IfErr, MatchResult, length};
ghost use Rattle.sets.specs.Sets.{set_of};
ghost use Rattle.book.specs.Limits.{most_rules};
ghost use Rattle.lent.specs.Lent.{tables_of};
ghost use Rattle.one_byte.specs.Move.{move_of};
ghost use Rattle.leaf.specs.Leaf.{leaf_start, end_of, lowest_of, family_at, line_leaf};

use answers::Damaged;
use book::Book;
use lent::Machine;
use lines::{Line, SEMICOLON};
use words::WORDS;

// What a line's leaf comes to: the line's count goes to a place.
#[derive(Clone, Copy)]
pub struct Leaf {
    pub place: usize,
    pub count: u64,
}

// ---- a leaf

// Where the last frame of a stack starts: behind its last `;`.
fn leaf_start(stack: &[u8]) -> usize
    ensures place { result ≡ leaf_start stack.now }
    ensures within { result ≤ length stack.now }
{
    match lines::last_mark(stack, SEMICOLON) {
        Some(mark) => mark + 1,
        None => 0,
    }
}

// The row in which the walk of a leaf as a text of its own ends; it reports nothing.
fn walk_leaf(tables: &Machine, leaf: &[u8]) -> Result<usize, Damaged>
    ensures row { result ≡ end_of (move_of tables.now.goto.now tables.now.fall.now tables.now.rows) leaf.now }
    ensures within { IfErr result (λ d. d.at < length leaf.now) }
{
    let mut row = 0;
    for (at, byte) in leaf.iter().enumerate() {
        row = one_byte::move_on(tables, row, *byte)
            .ok_or(Damaged { at })?
            .row;
    }
    Ok(row)
}

// The lowest rule that is in both sets, or the place after the last rule: it is that of unnamed, which the paper counts like a family.
// By number, since of slices of any length just WORDS words count, and a word that a slice has not is 0.
fn lowest(live: &[u64], out: &[u64]) -> usize
    ensures { result ≡ lowest_of (set_of live.now) (set_of out.now) }
{
    for i in 0..WORDS {
        let both = words::word(live, i) & words::word(out, i);
        if both != 0 {
            return 64 * i + bits::first(both) as usize;
        }
    }
    Book::RULES
}

// The family of a leaf of `size` bytes whose walk ends in the row, or the place of unnamed, as above.
#[tactic(auto, unfolding(crate::specs::Leaf::family_at))]
fn family(tables: &Machine, row: usize, size: usize) -> usize
    ensures { result ≡ family_at tables.now.held.now tables.now.live.now tables.now.out.now row size }
{
    let held = tables.held.get(row).copied().unwrap_or(0);
    if usize::from(held) != size {
        return Book::RULES;
    }
    lowest(
        &one_byte::rules(tables.live, row),
        &one_byte::rules(tables.out, row),
    )
}

// ---- a line

// What a line's leaf comes to. A line that breaks the rules counts 0 to unnamed, as `line_leaf` says; where a profile is added, `lines::check` has refused it before.
#[tactic(auto, using(lines::proofs::Lines::stack_within, crate::proofs::InBoth::family_within))]
pub fn of_line(tables: &Machine, line: &[u8]) -> Result<Leaf, Damaged>
    ensures leaf { result ≡ line_leaf (tables_of tables.now) tables.now.rows line.now }
    ensures within { MatchResult result (λ l. l.place ≤ most_rules) (λ d. d.at < length line.now) }
{
    let Some(Line { stack, count }) = lines::read_line(line) else {
        return Ok(Leaf {
            place: Book::RULES,
            count: 0,
        });
    };
    let start = leaf_start(&line[..stack]);
    let row = walk_leaf(tables, &line[start..stack]).map_err(|damage| Damaged {
        at: start + damage.at,
    })?;
    Ok(Leaf {
        place: family(tables, row, stack - start),
        count,
    })
}
