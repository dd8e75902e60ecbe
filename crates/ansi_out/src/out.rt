// The bytes of a terminal, and what they say of its cursor.
ghost use Rattle.std.specs.Prelude.{◌≡◌, ◌<◌, ◌≤◌, true, vec_len};
ghost use Rattle.width.specs.Widths.{table_cells};
ghost use Rattle.stream.specs.Cursors.{cursor_of};
ghost use Rattle.stream.specs.Grounded.{grounded};

/// A terminal that holds the bytes to be sent. Its page is what they read as; its room is the Vec's capacity.
#[derive(Drop)]
pub struct AnsiOut {
    pub(crate) bytes: Vec<u8>,
    pub(crate) width: u16,
    pub(crate) height: u16,
    pub(crate) line: u16,
    pub(crate) col: u16,
    pub(crate) work: u64,
    // another call may be sent behind the bytes
    ghost sound: { grounded bytes.items ≡ true },
    // the cursor is where they leave it
    ghost row: { (cursor_of table_cells width (bytes.items)).row ≡ line },
    ghost column: { (cursor_of table_cells width (bytes.items)).col ≡ col },
    // each run and each clear sent a byte at least
    ghost paid: { work ≤ vec_len bytes },
    ghost size: { (0 < width) × (0 < height) × (line < 65535) },
}
