// Tables that are damaged.
use drawn::{Key, NO_ENTRY, Tables};

// An entry changed, or the rules of a row, or another N.
pub fn damage(tables: &mut Tables, key: Key) {
    let rows = tables.rows;
    let row = key.pick(1, rows) % 64;
    match key.pick(0, 8) {
        0 => tables.fall[row] = odd_row(key, rows),
        1 => tables.held[row] = key.pick(2, 6) as u8,
        2 => {
            tables.live[4 * row] = key.at(2).0;
            tables.out[4 * row] = key.at(3).0;
        }
        3 => tables.rows = rows_for(key, rows),
        _ => tables.goto[256 * row + usize::from(key.letter(2))] = odd_row(key, rows),
    }
}

// No row, one past the last, or any.
fn odd_row(key: Key, rows: usize) -> u16 {
    match key.pick(3, 3) {
        0 => NO_ENTRY,
        1 => (rows % 65536) as u16,
        _ => (key.pick(4, rows) % 65536) as u16,
    }
}

// None, more than are lent, or one less or more than there are.
fn rows_for(key: Key, rows: usize) -> usize {
    match key.pick(2, 4) {
        0 => 0,
        1 => 65,
        2 => rows.saturating_sub(1),
        _ => rows.saturating_add(1),
    }
}
