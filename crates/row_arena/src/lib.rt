//! The free record rows: a caller takes one, fills it, and a keeper gives rows back.
#![tactic(auto)]

mod giving;
mod laws;
mod taking;

pub use giving::{Given, give};
pub use laws::{no_free_row_means_used_up, used_up_rows_stay_so};
pub use taking::{Taken, fill, take};
