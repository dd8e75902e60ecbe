// Worked examples, as one theorem.
ghost use Rattle.std.specs.Prelude.{◌≡◌, Some};
ghost use Rattle.ansi.specs.declared.refusal.Refusal.TheVariants.{NoColour};
ghost use Rattle.frame.specs.Examples.{Worked};

use ansi::Refusal;
use pen::check_text;

/// The refusal of ESC alone, with a theorem on worked examples.
pub fn worked_examples() -> Option<Refusal>
    ensures value { result ≡ Some (NoColour 0) }
    ensures law { Worked }
{
    check_text(b"\x1B").err()
}
