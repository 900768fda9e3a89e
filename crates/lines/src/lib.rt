// The lines of a folded profile: where a line ends, its stack and its count, and the first line that breaks the rules.
#![tactic(auto)]

ghost use Rattle.std.specs.Prelude.{◌≡◌, ◌+◌, ◌-◌, ◌≤◌, IfSome, ◌<◌, length};
ghost use Rattle.lines.specs.Lines.{mark_from, last_of, last_mark_of, count_of, line_of, check_of};

// LF ends a line, a space stands in front of a count, `;` stands between frames.
pub const LF: u8 = 10;

pub const SPACE: u8 = 32;

pub const SEMICOLON: u8 = 59;

// The largest count of a line.
const MOST_COUNT: u64 = 4294967295;

// A line: how many bytes its stack has, and its count.
#[derive(Clone, Copy)]
pub struct Line {
    pub stack: usize,
    pub count: u64,
}

// A line that breaks the rules, and where it starts.
#[derive(Clone, Copy)]
pub struct BadLine {
    pub at: usize,
}

// Where what starts at `from` ends: at the first `mark`, or, as the last piece has none, at the length; at `from` itself where that is past the end.
// Loops that cut at a mark go by such offsets: the refusals 13 and 15 tell offsets, and behind a last LF `split` gives an empty piece, which is no line.
pub fn find(text: &[u8], from: usize, mark: u8) -> usize
    ensures { (result ≡ mark_from mark from text.now) × (result ≤ from + (length text.now - from)) }
{
    let rest = &text[from.min(text.len())..];
    from + rest.iter().position(|c| *c == mark).unwrap_or(rest.len())
}

// The place of the last `mark`, or the length: a number, as its promise is of any text.
#[tactic(auto, using(crate::proofs::Written::last_is_told))]
pub fn find_last(text: &[u8], mark: u8) -> usize
    ensures { (result ≡ last_of mark text.now) × (result ≤ length text.now) }
{
    last_mark(text, mark).unwrap_or(text.len())
}

// The place of the last `mark`, where there is one.
pub fn last_mark(text: &[u8], mark: u8) -> Option<usize>
    ensures place { result ≡ last_mark_of mark text.now }
    ensures within { IfSome result (λ at. at < length text.now) }
{
    text.iter().rposition(|c| *c == mark)
}

// Reads a count: `0`, or 1 to 10 digits without a leading zero, at most MOST_COUNT.
#[tactic(auto, using(std::proofs::lemmas::Bool::Decides::nat_tests), unfolding(crate::specs::Lines::count_of))]
pub fn read_count(digits: &[u8]) -> Option<u64>
    ensures { result ≡ count_of digits.now }
{
    if digits.is_empty() || 10 < digits.len() {
        return None;
    }
    if digits[0] == b'0' {
        return (digits.len() == 1).then_some(0);
    }
    let mut value: u64 = 0;
    for byte in digits {
        if !byte.is_ascii_digit() {
            return None;
        }
        let next = u64::from(byte - b'0');
        // The limit, in this one place: 10 * value + next is made only where it is at most MOST_COUNT.
        if (MOST_COUNT - next) / 10 < value {
            return None;
        }
        value = 10 * value + next;
    }
    Some(value)
}

// Reads a line: the stack is all in front of its last space, the count all behind.
#[tactic(auto, unfolding(crate::specs::Lines::line_of))]
pub fn read_line(line: &[u8]) -> Option<Line>
    ensures { result ≡ line_of line.now }
{
    let stack = last_mark(line, SPACE)?;
    if stack == 0 {
        return None;
    }
    let count = read_count(&line[stack + 1..])?;
    Some(Line { stack, count })
}

// The first pass: ends at the first line that breaks the rules. By offsets, as `find` says.
pub fn check(profile: &[u8]) -> Result<(), BadLine>
    ensures { result ≡ check_of profile.now }
{
    let mut at = 0;
    while at < profile.len() {
        let end = find(profile, at, LF);
        read_line(&profile[at..end]).ok_or(BadLine { at })?;
        at = end + 1;
    }
    Ok(())
}
