// Old tables made new: live and out had one word a row, and have as many as `sets` gives a row now.
#![tactic(auto)]

ghost use Rattle.std.specs.Prelude.{◌≡◌, length};
ghost use Rattle.widen.specs.Widen.{widened_at, widened, room_of, widen_of, buffer_of, number, value};

use numbered::Numbered;
use words::WORDS;

// The one refusal: a buffer has no room for so many old numbers.
#[derive(Clone, Copy)]
pub struct Short {
    pub needed: usize,
}

impl Numbered for Short {
    ghost number_is = { number };

    ghost value_is = { value };

    fn number(&self) -> usize {
        33
    }

    fn value(&self) -> u64 {
        self.needed as u64
    }
}

// What comes to stand at place i.
fn at(old: &[u64], i: usize) -> u64
    ensures { result ≡ widened_at old.now i }
{
    if i % WORDS == 0 {
        words::word(old, i / WORDS)
    } else {
        0
    }
}

// Every place of the new buffer, in order.
fn spread(old: &[u64], new: &mut [u64])
    ensures { new.new ≡ widened (length new.old) old.now }
{
    for i in 0..new.len() {
        new[i] = at(old, i);
    }
}

// Whether the new buffer has room for the old numbers' rows.
fn room(old: &[u64], new: &[u64]) -> Result<(), Short>
    ensures { result ≡ room_of (length old.now) (length new.now) }
{
    if new.len() / WORDS < old.len() {
        return Err(Short { needed: old.len() });
    }
    Ok(())
}

// Puts each old number first of its row's words, zeros behind it, and 0 in every later place. Where a buffer has no room for that, nothing is changed.
pub fn widen(
    old_live: &[u64],
    old_out: &[u64],
    live: &mut [u64],
    out: &mut [u64],
) -> Result<(), Short>
    ensures answer { result ≡ widen_of (length old_live.now) (length old_out.now)
        (length live.old) (length out.old) }
    ensures live_left { live.new ≡ buffer_of result old_live.now live.old }
    ensures out_left { out.new ≡ buffer_of result old_out.now out.old }
{
    room(old_live, live)?;
    room(old_out, out)?;
    spread(old_live, live);
    spread(old_out, out);
    Ok(())
}
