// Handing on what a source gives to a sink, over any source and any sink; and what it will need, told beforehand.
#![tactic(auto)]

pub mod convert;
pub mod copy;
pub mod survey;
pub mod tally;
pub mod texts;
pub mod whole;

pub use convert::{Converted, Unconverted, hand_all};
pub use survey::{Survey, Unsurveyed};
pub use texts::Texts;
pub use whole::Whole;
