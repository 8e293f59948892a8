//! Stores of cells, and sessions in which walks iterate over a store while it is changed.
#![tactic(auto)]

mod event;
mod fault;
pub mod laws;
mod placed;
mod refusal;
mod session;
mod stop;

pub use event::{Event, Reply};
pub use fault::{Fault, FaultKind};
pub use placed::Placed;
pub use refusal::{Code, Refusal};
pub use session::Session;
pub use stop::Stop;
