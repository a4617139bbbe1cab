//! What people are told of a text that is not read: each fault with its place, the line there, and a hint.
#![tactic(auto)]

mod complaint;
mod excerpt;
mod findings;
mod hint;
mod hints;
mod line;
mod message;
mod place;
mod record;
mod shown;
mod walk;

pub use complaint::{Complaint, complaint_of};
pub use excerpt::{Look, write_complaint};
pub use findings::{Findings, Repeated, Unanchored, faults_of, findings_of};
pub use line::line_around;
pub use record::write_record;
