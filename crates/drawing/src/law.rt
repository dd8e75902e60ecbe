// Theorems on drawings.
ghost use Rattle.drawing.specs.SameRows.{Compares};
ghost use Rattle.drawing.specs.Law.{Redraws, Idles};

/// Computes nothing. Its theorems are on the orders by which new rows are drawn over the last ones: performed, they leave
/// a page that shows the new rows; where the rows are equal they do no work; and the test by which equal rows are left
/// out is exact.
pub fn drawings_show()
    ensures { Redraws × Idles × Compares }
{}
