//! Sentences on faults, for people: one line that quotes the faulty bytes, and says what was expected. Also the line of a CSV record.
#![tactic(auto)]

mod batch;
mod clash;
mod disagreement;
mod field;
mod foreign;
mod hints;
mod lines;
mod nearest;
mod places;
mod query;
mod schema;
mod script;
mod syntax;
mod tour;
mod wanted;

pub use batch::BatchText;
pub use disagreement::say_disagreement;
pub use field::FieldFault;
pub use foreign::no_summary;
pub use lines::line_of;
pub use query::say_query;
pub use schema::say_schema;
pub use script::{ScriptPlace, say_columns, say_limit, say_taken};
