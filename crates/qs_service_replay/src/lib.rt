//! Scripts of connection events, and the run of a script's events over connections.
//!
//! `read_script` reads the events that the lines of a text tell: `join <id>`, `piece <id> <hex>` and `end <id>`. `replay` carries events
//! out over connections, and puts a line for each reply, when it is made, and for each event that is refused.
//!
//! The definitions stand in `specs/`: the text of a script in `Script.antt`, what a run of events writes in `Replay.antt`, and what a sink
//! took of it in `Replayed.antt`.
#![tactic(auto)]

mod laws;
mod line;
mod parts;
mod run;
mod script;
mod script_event;
mod told;

pub use laws::scripts_are_unique;
pub use run::{ReplayEnd, ReplayResult, replay};
pub use script::{ScriptFault, read_script};
pub use script_event::ScriptEvent;
