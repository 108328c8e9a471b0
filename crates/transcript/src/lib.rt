// What loading and redumping a list of packed events comes to, told as text: every load with its nodes, links and marks, the refusal or the
// stream's end, and the events written.
#![tactic(auto)]

pub mod answering;
pub mod hex;
pub mod listing;
pub mod running;
pub mod shown;
pub mod telling;

pub use answering::answer;
pub use listing::tell_lists;
pub use running::run_lists;
