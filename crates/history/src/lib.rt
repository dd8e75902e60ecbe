// What a renderer does over whole histories of calls, and the law of its page.

#![tactic(auto)]

ghost use Rattle.history.specs.Law.{Law};

mod error;

pub use error::RenderError;

/// The law over histories of calls: what the page of a renderer shows at every point.
pub fn law_holds() -> u8
    ensures { Law }
{
    0
}
