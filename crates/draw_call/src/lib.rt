//! The call of `stk_draw`: a picture of a run, of the text in one file, put into another.
#![tactic(auto)]

mod drawing;
pub mod laws;
mod refusal;
mod status;
mod top;
mod words;

pub use refusal::DrawRefusal;
pub use status::DrawStatus;
pub use top::draw_main;
pub use words::DrawCall;
