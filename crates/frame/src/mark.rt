// Where a mark stands.
ghost use Rattle.std.specs.Prelude.{◌≡◌, ◌/◌, ◌%◌, ◌<◌};
ghost use Rattle.frame.specs.Marks.{mark_column};

// The rows and columns that a mark stands behind the open row's start, together.
pub(crate) fn folded_column(width: u16, offset: u16, columns: u16) -> (u16, u16)
    requires { 0 < columns }
    ensures { (result.0 ≡ mark_column width offset / columns) × (result.1 ≡ mark_column width offset % columns) }
{
    let column = width.saturating_add(offset);
    (column / columns, column % columns)
}
