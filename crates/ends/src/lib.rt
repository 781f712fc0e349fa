// What a link end holds, what it is asked and what it answers; and, in specs/, what each call decides and leaves.
#![tactic(auto)]

pub mod answers;
pub mod joined;
pub mod places;
pub mod refusals;
pub mod requests;
pub mod roles;
pub mod states;

pub use answers::{Arrived, Delivery};
pub use joined::Joined;
pub use places::{Installation, Partial, Place};
pub use refusals::Refusal;
pub use requests::{InstallRequest, Plan, Request, Span};
pub use roles::{CodedSuites, Role, State};

// So many slots of an end are pairwise places'; the groups' stand behind them.
pub const PAIRWISE_PLACES: usize = 16;

// The last time that a clock may show, in milliseconds: 2^62.
pub const LAST_TIME: u64 = 0x4000_0000_0000_0000;

// The longest message, its code not counted.
pub const LONGEST_MESSAGE: usize = 2304;

// How long the working memory is that a send or an arrival is lent.
pub const WORKING_LENGTH: usize = 2560;
