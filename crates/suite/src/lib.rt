// What a suite is: five numbers, four functions and the laws that bind them. The link end is proved from this alone.
#![tactic(auto)]

pub mod consequences;
pub mod faults;
pub mod heads;
pub mod sizes;
pub mod suites;

pub use consequences::laws_follow;
pub use faults::{HeadFault, OpenFault, PieceFault};
pub use heads::{key_id_in, key_id_octet};
pub use sizes::{Direction, LONGEST_PIECE, Sizes};
pub use suites::Suite;
