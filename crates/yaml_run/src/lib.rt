//! What programs over YAML share: shapes with names, an input that is read whole, what is told of a reading or shown to
//! people, and how that is printed.
#![tactic(auto)]

mod answer;
mod audience;
mod events;
mod faults;
mod input;
mod printing;
mod shapes;
mod shown;
mod status;
mod text;
mod told;
mod turns;
mod watched;

pub use answer::Answer;
pub use audience::Audience;
pub use events::read_events;
pub use input::{Unanswered, Unread, read_input};
pub use printing::{conclude, print, print_bytes};
pub use shapes::Named;
pub use shown::{Shown, show_in_turn, show_text};
pub use status::Status;
pub use text::read_text;
pub use told::{Told, told_for, told_of, told_of_bad_line};
pub use turns::read_in_turn;
pub use watched::Watched;
