// The route report: whether desk A can be heard by desk B, and the list of calls that shows it.
#![tactic(auto)]

pub mod report;
pub mod showing;
mod writing;

use reaching::nearing::LINKS;
use rules::CALL_WIDTH;

// A list has so many calls for each link, and so many more at its end.
pub const CALLS_OF_LINK: usize = 4;

pub const CALLS_AT_END: usize = 1;

// The room that every list fits into, in numbers.
pub const ROUTE_NUMBERS: usize = (CALLS_OF_LINK * LINKS + CALLS_AT_END) * CALL_WIDTH;
