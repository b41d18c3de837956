//! Turns OIL of other kernels into the plain OIL that `oil_reader` takes, and tells what it left
//! out, set or refused. Where `import` answers a text, that text means a file. That the file
//! means what the user's files mean is tested, not proved.
//!
//! Attributes of implementations, descriptions, includes and objects of other standards are left
//! out, defaults are set, and what can't be expressed is refused. Nothing that is proved of runs
//! depends on this crate.
//!
//! Files become tokens (`tokens`), in the order in which files include one another (`includes`),
//! these become items by depth of braces (`items`). What is kept of them is written as a draft
//! (`draft`, `settings`, `objects`, `files`), which is read and printed (`importing`). `defaults`
//! are those of the file's own implementation, `priorities` those that are numbered anew,
//! `long_names` those whose end is taken, `links` those between resources. Alarms stand for
//! schedule tables (`tables`, `expiry_points`, `expiries`), as far as their `counters` count.
//! `bends` are what is refused unless it is asked for. `messages` tells what was left out, set,
//! kept or refused, `budgets` what was left out that may be of use elsewhere.
#![tactic(auto)]

mod attributes;
mod bends;
mod braces;
mod budgets;
mod counters;
mod declared;
mod defaults;
mod draft;
mod earlier;
mod expiries;
mod expiry_points;
mod files;
mod importing;
mod includes;
mod items;
mod links;
mod long_names;
mod messages;
mod objects;
mod priorities;
mod reasons;
mod settings;
mod sources;
mod tables;
mod taken;
mod tokens;

pub use budgets::{Budget, Budgets};
pub use expiries::ExpiryName;
pub use importing::{PlainOil, import};
pub use messages::{Message, Messages, Subject, Verdict};
pub use sources::{Place, Source};
