// Folded profiles by the paper's words: their lines, with a stack and a count. Sums here stay small; one that did not would wrap.
ghost use Rattle.std.specs.Prelude.{◌≡◌, ◌<◌, ◌≤◌, length, take, IfSome, None, []};

use crate::part;

// A line that keeps the rules.
#[derive(Clone, Copy)]
pub struct Line<'a> {
    pub stack: &'a [u8],
    pub count: u64,
}

impl<'a> Line<'a> {
    // Nothing where the line breaks the rules: its stack, which is not empty, ends at its last space.
    pub fn of(line: &'a [u8]) -> Option<Line<'a>>
        ensures { IfSome result (λ l. (0 < length l.stack.now) × (l.count < 4294967296)) }
    {
        let space = line.iter().rposition(|byte| *byte == b' ')?;
        let stack = part(line, 0, space);
        let count = count_of(part(line, space.wrapping_add(1), line.len()))?;
        if stack.is_empty() {
            return None;
        }
        Some(Line { stack, count })
    }
}

// The number in 1 to 10 digits, of which the first of several is not 0, and which is below 2 ^ 32.
fn count_of(digits: &[u8]) -> Option<u64>
    ensures { IfSome result (λ count. count < 4294967296) }
{
    match digits {
        [] | [b'0', _, ..] => return None,
        _ => {}
    }
    if 10 < digits.len() || !digits.iter().all(|digit| digit.is_ascii_digit()) {
        return None;
    }
    let mut number = 0u64;
    for digit in digits {
        number = 10 * (number % 1000000000000) + u64::from(*digit - b'0');
    }
    if 4294967296 <= number {
        return None;
    }
    Some(number)
}

// The profile without the LF that ends it: what its LFs part are its lines.
pub fn lines_of(profile: &[u8]) -> &[u8]
    ensures begins { result.now ≡ take (length result.now) profile.now }
    ensures most { length result.now ≤ length profile.now }
{
    match profile {
        [lines @ .., b'\n'] => lines,
        lines => lines,
    }
}

// The offset of the first line that breaks the rules.
pub fn first_bad(profile: &[u8]) -> Option<usize>
    ensures { profile.now ≡ [] → result ≡ None }
{
    if profile.is_empty() {
        return None;
    }
    let mut from = 0usize;
    for line in lines_of(profile).split(|byte| *byte == b'\n') {
        if Line::of(line).is_none() {
            return Some(from);
        }
        from = from.wrapping_add(line.len()).wrapping_add(1);
    }
    None
}
