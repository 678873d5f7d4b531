// The index: a header by value, lent words and lent fence records, and the calls of document 01 over
// them. Every call takes any header, any words and any records, and no caller has to check first.
//
// Below it stand `fence_records`, which has the loops over fence records, and `memory`, `change_value`,
// `load_column`, `dump_spans` and `audit_value`, which have everything that a call does without them. It knows
// nothing of histories and programs.
#![tactic(auto)]

pub mod answering;
pub mod auditing;
pub mod changing;
pub mod deciding;
pub mod dumping;
pub mod loading;

pub use answering::{query, value};
pub use auditing::audit;
pub use changing::{delete, insert, merge, update};
pub use dumping::dump;
pub use loading::load;
