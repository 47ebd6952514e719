// An accepted image into frames, as r9's exec.rs loads it.

#![tactic(auto)]

mod installer;
mod loader;

pub use installer::{install, record_of};
pub use loader::load;
