// The lent fence records: a thin read of a record, and the loops over fences and over values that the calls have in
// them; a fence that is made anew is written to its record as it is found.
//
// Below it stand `memory`, `change_value`, `dump_spans` and `audit_value`, which have everything that a call does
// without a slice of fence records; the calls themselves stand above, in `index`.
#![tactic(auto)]

pub mod changing;
pub mod checking;
pub mod marking;
pub mod reading;
pub mod records;
