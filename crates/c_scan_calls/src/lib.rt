// A gate placed, a scan tallied and sums published, from what C gives. A refusal leaves all that is lent as it came in.
#![tactic(auto)]

mod gate;
mod published_sums;
mod tallied_scan;

pub use gate::answer_place;
pub use published_sums::answer_publish;
pub use tallied_scan::answer_tally;
