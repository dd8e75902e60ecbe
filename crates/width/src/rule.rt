//! Width rules: how many cells a character takes.

ghost use Rattle.std.specs.Prelude.{◌≡◌, ℕ, ◌-◌, ◌^◌, ◌≤◌, min, true, sum_by};
ghost use Rattle.std.specs.Str.{chars};
ghost use Rattle.width.specs.Controls.{is_control};
ghost use Rattle.width.specs.Widths.{table_cells, per_point_cells, is_zero_width, is_wide};
ghost use Rattle.std.proofs.Common.{rules};
ghost use Rattle.width.specs.TableRuleLemmas;

/// A fixed number of cells for each character.
pub trait WidthRule {
    // the cells of the character with this code point
    ghost cells: { ℕ → ℕ };

    /// The cells of a character.
    fn width(c: char) -> usize
        ensures { result ≡ cells c };

    ghost narrow: { (c : ℕ) → cells c ≤ 2 };

    ghost controls: { (c : ℕ) → is_control c ≡ true → cells c ≡ 0 };
}

/// No cell for a control, and one for any other character.
#[derive(Clone, Copy)]
pub struct PerPoint;

impl WidthRule for PerPoint {
    ghost cells = { per_point_cells };

    ghost narrow = { Prim.search rules };

    ghost controls = { Prim.search rules };

    fn width(c: char) -> usize {
        if c.is_control() { 0 } else { 1 }
    }
}

/// Cells by a table of ranges: two for East Asian characters and emoji, none for controls, combining marks and
/// zero-width characters, and one for any other.
#[derive(Clone, Copy)]
pub struct Table;

impl WidthRule for Table {
    ghost cells = { table_cells };

    ghost narrow = { λ c. TableRuleLemmas.narrow (is_zero_width c) (is_wide c) };

    ghost controls = { Prim.search rules };

    fn width(c: char) -> usize {
        match c {
            // printable ASCII first: most text is of it
            ' '..='~' => 1,
            '\0'..='\u{1F}' | '\u{7F}'..='\u{9F}' => 0,
            '\u{300}'..='\u{36F}' | '\u{200B}'..='\u{200F}' => 0,
            '\u{1100}'..='\u{115F}' | '\u{2E80}'..='\u{303E}' | '\u{3041}'..='\u{A4CF}' => 2,
            '\u{AC00}'..='\u{D7A3}' | '\u{FF00}'..='\u{FF60}' | '\u{1F300}'..='\u{1F64F}' => 2,
            _ => 1,
        }
    }
}

/// The cells of the characters of a text together, or `usize::MAX` where there are more.
pub fn text_width<R: WidthRule>(text: &str) -> usize
    ensures { result ≡ min (sum_by R.WidthRule.cells (chars text.now)) (2 ^ 64 - 1) }
{
    text.chars()
        .fold(0, |sum: usize, c| sum.saturating_add(R::width(c)))
}
