//! Explains a refused text: where it is, what is wrong there, what would be allowed. The line and
//! the column are exactly those of the place (`line_and_column`); the explanations are tested.
//!
//! The texts are OIL files, program texts and arrival lists. Each explanation is written behind
//! the fixed line of the refusal. What the explanations of whole systems need too is public: all
//! remarks on places are written here.
#![tactic(auto)]

mod allowed_values;
mod hints;
mod mnemonics;
mod named_words;
mod notes;
mod oil_faults;
mod oil_objects;
mod oil_texts;
mod pieces;
mod positions;
mod programs;
mod refused_lines;
mod scopes;
mod shown;
mod source;
mod trees;
mod unseen;
mod words;

pub use named_words::explain_name;
pub use notes::{write_choice, write_first_names, write_names};
pub use oil_faults::explain_oil;
pub use pieces::{Piece, kind_word};
pub use positions::{Position, line_and_column};
pub use programs::explain_programs;
pub use refused_lines::{LineFault, explain_arrivals, explain_mode, explain_open_mode};
pub use source::Source;
pub use trees::{names, tree_of};
pub use words::{CodeWord, Part, code_words};
