// Where rows break.
ghost use Rattle.std.specs.Prelude.{◌≡◌, ◌-◌, nat_lt};
ghost use Rattle.layout.specs.RowLaw.{RowsLaw};

/// Whether a character of this many cells goes to a row of its own behind `width` cells. A row ends nowhere else but at
/// newlines, and so no row is wider than the columns.
#[tactic(auto, using(crate::proofs::RowLaws::rows_law))]
pub fn folds(columns: u16, width: u16, cells: u16) -> bool
    ensures value { result ≡ nat_lt (columns - width) cells }
    ensures law { RowsLaw }
{
    columns.saturating_sub(width) < cells
}
