//! Lists in arrays of fixed room.
ghost use Rattle.std.specs.Prelude.{◌≡◌, ◌≤◌, length};
ghost use Rattle.nr_model.specs.Padded.{padded};

/// The items, and fillers behind them up to the room.
pub fn padded_copy<T: Copy, const ROOM: usize>(items: &[T], filler: T) -> [T; ROOM]
    requires { length items.now ≤ ROOM }
    ensures { result ≡ padded ROOM filler items.now }
{
    let mut cells = [filler; ROOM];
    for (i, item) in items.iter().enumerate() {
        cells[i] = *item;
    }
    cells
}
