// Scripts: setups and events read from bytes. Any bytes and any place are answered.
#![tactic(auto)]

mod read;

pub use read::{EventRead, SetupRead, read_event, read_setup, rest};
