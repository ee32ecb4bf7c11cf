// Sheets: a trace is rewritten letter by letter into the shortest text that passes and has its kept windows in order.
#![tactic(auto)]

mod calls;
mod carrying;
mod deciding;
mod laws;
mod plan;
mod sheet;
mod stage;
mod window;

pub use laws::sheet_law;
pub use sheet::Sheet;
