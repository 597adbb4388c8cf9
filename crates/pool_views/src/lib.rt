// What a door sees: its own data, and the records of the rows that it lists.
#![tactic(auto)]

ghost use Rattle.std.specs.Prelude.{◌≡◌};
ghost use Rattle.door.specs.Door.{seen_of};
ghost use Rattle.pool.specs.Placed.{seen_in, view_in};

use door::{EACH, View};
use unit::{Position, ROWS};
use unit_bytes::ROW;

// What a door with this position sees.
pub fn view_of(rows: &[[u8; ROW]; ROWS], position: Position) -> View
    ensures { (result ≡ view_in rows.now position) × (seen_of result ≡ seen_in rows.now position) }
{
    let zeros = door_values::no_session();
    let mut held = [zeros; EACH];
    let n = row_list::count_of(position);
    for i in 0..n {
        held[i] = pool_rows::record_at(rows, position.rows[i]);
    }
    View {
        door: position.door,
        count: position.count,
        held,
    }
}
