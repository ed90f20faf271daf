// The list of recorded answers as text: what a case lists of a machine, reading a line, making what its seed stands for, judging what a call left, and saying so.
#![tactic(auto)]

pub mod items;
pub mod judge;
pub mod make;
pub mod say;
pub mod scene;
pub mod text;
