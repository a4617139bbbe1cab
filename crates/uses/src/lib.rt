//! Types of one's own, read from data and written as data: the callers that `yaml_types/CALLING.md` quotes.
#![tactic(auto)]

mod address;
mod backup;
mod folder;
mod greeting;
mod listen;
mod ports;
mod server;
mod timeouts;
mod workers;

pub use address::Address;
pub use backup::Backup;
pub use folder::Folder;
pub use greeting::Greeting;
pub use listen::Listen;
pub use ports::Ports;
pub use server::Server;
pub use timeouts::Timeouts;
pub use workers::Workers;
