// The tally over a folded profile: the walk of each frame of each line's stack, and what is added.
#![tactic(auto)]

ghost use Rattle.std.specs.Prelude.{◌≡◌, ◌+◌, ◌-◌, ◌*◌, ◌≤◌, length, take, drop};
ghost use Rattle.sets.specs.Sets.{members, set_of, plus_each};
ghost use Rattle.sets.specs.Table.{rules_at};
ghost use Rattle.book.specs.Limits.{most_rules, most_bytes};
ghost use Rattle.lent.specs.Lent.{tables_of};
ghost use Rattle.lines.specs.Lines.{most_count};
ghost use Rattle.tally.specs.Tally.{add_all, moves_over, frame_pass, frame_rules, stack_pass, stack_rules, line_pass, line_sums, lines_pass, lines_sums, sums_of, tally_of, buffer_of};
ghost use Rattle.tally.specs.Passes.{Room, After, Unites};

use answers::{Damaged, TallyRefusal};
use bits::Members;
use book::Book;
use lent::Machine;
use lines::{LF, Line, SEMICOLON};
use words::Set;

// ---- pieces of a profile

// Bytes of a profile, and where they start in it.
#[derive(Clone, Copy)]
struct Piece<'a> {
    bytes: &'a [u8],
    base: usize,
    ghost within: { base + length bytes.now ≤ most_bytes },
}

impl<'a> Piece<'a> {
    // Its bytes from `at` up to `end`.
    fn part(&self, at: usize, end: usize) -> Piece<'a>
        requires { (at ≤ end) × (end ≤ length self.now.bytes.now) }
        ensures bytes { result.bytes.now ≡ take (end - at) (drop at self.now.bytes.now) }
        ensures base { result.base ≡ self.now.base + at }
    {
        Piece {
            bytes: &self.bytes[at..end],
            base: self.base + at,
        }
    }
}

// ---- what is added

// How much room the sums have is another number in each contract, so that no field holds it.

// Adds the count to the sum of each rule of a word of a set, whose first is rule `base`.
#[tactic(auto, unfolding(crate::specs::Tally::add_all))]
fn add_word(word: u64, base: usize, count: u64, sums: &mut [u64; Book::RULES])
    requires { (count ≤ most_count) × (base + 64 ≤ most_rules) × Room (length (members 64 word)) sums.old }
    ensures { sums.new ≡ add_all count (plus_each base (members 64 word)) sums.old }
{
    for k in Members(word) {
        sums[base + k as usize] += count;
    }
}

// Adds the count to the sum of each rule of a set.
fn add(set: &Set, count: u64, sums: &mut [u64; Book::RULES])
    requires { (count ≤ most_count) × Room most_rules sums.old }
    ensures { sums.new ≡ add_all count (members most_rules (set_of set.now)) sums.old }
{
    for (i, word) in set.iter().enumerate() {
        add_word(*word, 64 * i, count, sums);
    }
}

// ---- walks

// Walks a frame; the rules that it reports join those seen.
#[tactic(auto, using(crate::proofs::Walks::of_frames), unfolding(crate::specs::Tally::frame_pass, crate::specs::Tally::frame_rules))]
fn walk_frame(tables: &Machine, frame: &Piece, seen: &mut Set) -> Result<(), Damaged>
    ensures pass { result ≡ frame_pass (moves_over tables.now) frame.now.base frame.now.bytes.now }
    ensures sees { Unites result seen.old seen.new (frame_rules (moves_over tables.now) (rules_at tables.now.out.now) frame.now.bytes.now) }
{
    let mut row = 0;
    for (i, byte) in frame.bytes.iter().enumerate() {
        let at = frame.base + i;
        let moved = one_byte::move_on(tables, row, *byte).ok_or(Damaged { at })?;
        row = moved.row;
        let rules = one_byte::rules(tables.out, row);
        words::unite(seen, &rules);
    }
    Ok(())
}

// Walks each frame of a stack, by offsets, as `lines::find` says. An empty one at the end has no byte to walk, and is not come to.
#[tactic(auto, using(crate::proofs::Walks::of_stacks), unfolding(crate::specs::Tally::stack_pass, crate::specs::Tally::stack_rules))]
fn walk_stack(tables: &Machine, stack: &Piece, seen: &mut Set) -> Result<(), Damaged>
    ensures pass { result ≡ stack_pass (moves_over tables.now) stack.now.base stack.now.bytes.now }
    ensures sees { Unites result seen.old seen.new (stack_rules (moves_over tables.now) (rules_at tables.now.out.now) stack.now.bytes.now) }
{
    let mut at = 0;
    while at < stack.bytes.len() {
        let end = lines::find(stack.bytes, at, SEMICOLON);
        walk_frame(tables, &stack.part(at, end), seen)?;
        at = end + 1;
    }
    Ok(())
}

// Walks a line, and adds its count once for each rule that a frame reports; a line that breaks the rules adds nothing.
#[tactic(auto, using(lines::proofs::Lines::stack_within, crate::proofs::Walks::count_within, crate::proofs::Walks::none_seen), unfolding(crate::specs::Tally::line_pass, crate::specs::Tally::line_sums))]
fn walk_line(tables: &Machine, line: &Piece, sums: &mut [u64; Book::RULES]) -> Result<(), Damaged>
    requires { Room most_rules sums.old }
    ensures pass { result ≡ line_pass (moves_over tables.now) line.now.base line.now.bytes.now }
    ensures adds { After result sums.new (line_sums (moves_over tables.now) (rules_at tables.now.out.now) line.now.bytes.now sums.old) }
{
    if let Some(Line { stack, count }) = lines::read_line(line.bytes) {
        let mut seen = words::none();
        walk_stack(tables, &line.part(0, stack), &mut seen)?;
        add(&seen, count, sums);
    }
    Ok(())
}

// The second pass: walks each line, by offsets likewise.
#[tactic(auto, using(crate::proofs::Walks::of_lines), unfolding(crate::specs::Tally::lines_pass, crate::specs::Tally::lines_sums))]
fn walk_lines(
    tables: &Machine,
    profile: &[u8],
    sums: &mut [u64; Book::RULES],
) -> Result<(), Damaged>
    requires { (length profile.now ≤ most_bytes) × Room (most_rules * length profile.now) sums.old }
    ensures pass { result ≡ lines_pass (moves_over tables.now) profile.now }
    ensures adds { After result sums.new (lines_sums (moves_over tables.now) (rules_at tables.now.out.now) profile.now sums.old) }
{
    let whole = Piece {
        bytes: profile,
        base: 0,
    };
    let mut at = 0;
    while at < profile.len() {
        let end = lines::find(profile, at, LF);
        walk_line(tables, &whole.part(at, end), sums)?;
        at = end + 1;
    }
    Ok(())
}

// ---- the tally

// The tally over a folded profile. A refusal leaves the sums as they were.
#[tactic(auto, unfolding(walk::specs::Walk::written))]
pub fn tally(tables: &Machine, profile: &[u8], sums: &mut [u64]) -> Result<(), TallyRefusal>
    ensures answer { result ≡ tally_of (tables_of tables.now) tables.now.rows profile.now (length sums.old) }
    ensures buffer { sums.new ≡ buffer_of result (sums_of (moves_over tables.now) (rules_at tables.now.out.now) profile.now) sums.old }
{
    if Book::TEXT < profile.len() {
        return Err(TallyRefusal::TooLong);
    }
    if !tables.has_rows() {
        return Err(TallyRefusal::BadRows { rows: tables.rows });
    }
    if sums.len() < Book::RULES {
        return Err(TallyRefusal::FewSums { places: sums.len() });
    }
    lines::check(profile)?;
    // A copy, which no sum that is written can be part of, so that its fields are not read again at each byte.
    let own = *tables;
    let mut new = [0; Book::RULES];
    walk_lines(&own, profile, &mut new)?;
    sums[..Book::RULES].copy_from_slice(&new);
    Ok(())
}
