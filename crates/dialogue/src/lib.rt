// What a script is answered: its lines are read as the calls of a session, and the session's log is told line by line.
#![tactic(auto)]

mod beginning;
mod grid;
mod lines;
mod reading;
mod said;
mod score;
mod spelled;
mod telling;
mod verb;
mod whole;

pub use whole::answer;
