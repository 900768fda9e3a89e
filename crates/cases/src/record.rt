// The record of a read compared with the bodies of the book's fields: every place of it.
use crate::judge::Sound;
use book::Book;
use drawn::part;

pub fn is_record(sound: &Sound<'_>, got: &Book) -> bool {
    usize::from(got.pictures) == sound.pictures()
        && got.rules == sound.rules()
        && is_symbols(sound, &got.symbols)
        && is_lengths(sound, &got.lengths)
        && is_sets(sound, &got.picture)
}

// Each symbol as 256 times its kind plus its second byte, and 0 in the places that no rule uses: rule by rule, as each one's bytes are sought once.
fn is_symbols(sound: &Sound<'_>, symbols: &[u16; 16384]) -> bool {
    symbols
        .chunks_exact(64)
        .enumerate()
        .all(|(k, places)| is_rule(sound.rule(k), places))
}

// The places of a rule: its pairs, and behind them 0.
fn is_rule(rule: &[u8], places: &[u16]) -> bool {
    let mut pairs = rule.chunks_exact(2).zip(places);
    let unused = part(places, rule.len() / 2, places.len());
    pairs.all(|(pair, symbol)| is_pair(pair, *symbol)) && unused.iter().all(|symbol| *symbol == 0)
}

fn is_pair(pair: &[u8], symbol: u16) -> bool {
    match pair {
        [kind, second] => symbol == u16::from_be_bytes([*kind, *second]),
        _ => false,
    }
}

fn is_lengths(sound: &Sound<'_>, lengths: &[u8; 256]) -> bool {
    lengths.iter().enumerate().all(|(k, length)| usize::from(*length) == sound.rule(k).len() / 2)
}

// Each byte with the set of just the pictures that list it.
fn is_sets(sound: &Sound<'_>, sets: &[u16; 256]) -> bool {
    (0..=255u8)
        .zip(sets)
        .all(|(byte, set)| *set == set_of(sound, byte))
}

// The pictures that list the byte, picture p at bit p.
fn set_of(sound: &Sound<'_>, byte: u8) -> u16 {
    let mut set = 0;
    for p in 0..16 {
        if sound.picture(p).contains(&byte) {
            set |= 1 << p;
        }
    }
    set
}

// Whether a byte is in two pictures.
pub fn is_sharing(sets: &[u16; 256]) -> bool {
    sets.iter().any(|set| 1 < set.count_ones())
}
