// A terminal that writes bytes.

#![tactic(auto)]

mod calls;
mod methods;
mod out;
mod push;

pub use out::AnsiOut;
