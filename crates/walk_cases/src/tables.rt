// Tables that are damaged.
use drawn::{Key, NO_ENTRY, Tables, part};
use lent::Machine;

// An entry of goto, fall or out changed, another N, or other lengths.
pub fn damaged(tables: &mut Tables, key: Key) -> Machine<'_> {
    let rows = tables.rows;
    let row = key.pick(1, rows) % 64;
    let odd = odd_row(key, rows);
    match key.pick(0, 5) {
        0 => tables.goto[256 * row + usize::from(key.letter(2))] = odd,
        1 => tables.fall[row] = odd,
        2 => tables.out[4 * row + key.pick(2, 4)] = key.at(3).0,
        3 => tables.rows = key.pick(2, rows.wrapping_add(3)),
        _ => return cut(tables.machine(), key),
    }
    tables.machine()
}

// Mostly a row or one past the last, and often no entry at all.
fn odd_row(key: Key, rows: usize) -> u16 {
    if key.is_first(10, 3) {
        NO_ENTRY
    } else {
        (key.pick(11, rows.wrapping_add(2)) % 65536) as u16
    }
}

// Each buffer as long as the rows need, or a little longer or shorter.
fn cut(tables: Machine<'_>, key: Key) -> Machine<'_> {
    let near = |place: usize| {
        let rows = tables.rows.wrapping_add(key.pick(place, 6));
        rows.saturating_sub(1).min(64)
    };
    Machine {
        goto: part(tables.goto, 0, 256 * near(2) + key.pick(3, 256)),
        fall: part(tables.fall, 0, near(4)),
        held: part(tables.held, 0, near(5)),
        live: part(tables.live, 0, 4 * near(6) + key.pick(7, 4)),
        out: part(tables.out, 0, 4 * near(8) + key.pick(9, 4)),
        rows: tables.rows,
    }
}
