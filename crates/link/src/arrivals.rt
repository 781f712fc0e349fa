// Arrive: over the suite that Address 1 chooses, with working memory in a guard that wipes it.
ghost use Rattle.std.specs.Prelude.{◌≡◌};
ghost use Rattle.ends.specs.Places.{suites};
ghost use Rattle.ends.specs.Calls.{arrival, told};
ghost use Rattle.ends.specs.Calls.Call.{Arrive};
ghost use Rattle.ends.specs.Calls.Answer.{Came};
ghost use Rattle.ends.specs.Arrivals.{coded_suites};
ghost use Rattle.ends.specs.Steps.{IsStep, memories_of_arrival};
ghost use Rattle.link.specs.Whole.{held_by, SameSuites};

use crate::link_ends::LinkEnd;
use admission::{Lengths, admit};
use arriving::{Admitted, arrive_over};
use ends::{Arrived, CodedSuites, Refusal};
use octets::Wipe;
use suite::Suite;

// Which of the two suites put a code behind a message.
fn coded_suites<P: Suite, G: Suite>() -> CodedSuites
    ensures { result ≡ coded_suites (suites P.Suite.means G.Suite.means) }
{
    CodedSuites {
        pairwise: P::sizes().code > 0,
        group: G::sizes().code > 0,
    }
}

impl<P: Suite, G: Suite> LinkEnd<P, G> {
    // Takes in a frame. A message that is delivered begins the message memory, which nothing else changes. Working
    // memory holds only zeros afterwards, however the call ends.
    pub fn arrive(
        &mut self,
        frame: &[u8],
        time: u64,
        working: &mut [u8],
        message: &mut [u8],
    ) -> Result<Arrived, Refusal>
        ensures step { IsStep (suites P.Suite.means G.Suite.means) (held_by self.old) (Arrive (arrival frame.now time working.old message.old)) (told Came result) (held_by self.new) (memories_of_arrival working.new message.new) }
        ensures suites { SameSuites self.old self.new }
    {
        let guard = Wipe { octets: working };
        let coded = coded_suites::<P, G>();
        let lengths = Lengths {
            working: guard.octets.len(),
            message: message.len(),
        };
        let header = admit(&self.state, coded, frame, time, lengths)?;
        let admitted = Admitted {
            coded,
            header: &header,
            frame,
            time,
        };
        // Kept: no plainer: the suites are of two types, and each has its call of the one generic function.
        if header.address1.is_group() {
            arrive_over(
                &self.group_suite,
                &mut self.state,
                &admitted,
                guard.octets,
                message,
            )
        } else {
            arrive_over(
                &self.pairwise_suite,
                &mut self.state,
                &admitted,
                guard.octets,
                message,
            )
        }
    }
}
