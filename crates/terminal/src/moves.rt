// The columns that moves along a line end in.
ghost use Rattle.std.specs.Prelude.{◌≡◌};
ghost use Rattle.terminal.specs.Calls.{leftward, rightward};

/// The column after a move to the left, on a line of `width` cells.
pub fn leftward(width: u16, cnt: u16, col: u16) -> u16
    ensures { result ≡ leftward width cnt col }
{
    if cnt == 0 {
        return col;
    }
    col.min(width.saturating_sub(1)).saturating_sub(cnt)
}

/// The column after a move to the right, on a line of `width` cells.
pub fn rightward(width: u16, cnt: u16, col: u16) -> u16
    ensures { result ≡ rightward width cnt col }
{
    if cnt == 0 {
        return col;
    }
    let last = width.saturating_sub(1);
    col.min(last).saturating_add(cnt).min(last)
}
