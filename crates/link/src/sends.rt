// Send: over the suite of the place, with working memory in a guard that wipes it.
ghost use Rattle.ends.specs.Places.{suites};
ghost use Rattle.ends.specs.Calls.{sending, told};
ghost use Rattle.ends.specs.Calls.Call.{Send};
ghost use Rattle.ends.specs.Calls.Answer.{Sent};
ghost use Rattle.ends.specs.Steps.{IsStep, memories_of_send};
ghost use Rattle.link.specs.Whole.{held_by, SameSuites};

use crate::link_ends::LinkEnd;
use ends::{Place, Refusal, Request, Span};
use octets::Wipe;
use sending::send_over;
use suite::Suite;

impl<P: Suite, G: Suite> LinkEnd<P, G> {
    // Sends a message: its frames begin their memory, end to end, and a `Span` for each begins the index. Working memory
    // holds only zeros afterwards, however the call ends.
    pub fn send(
        &mut self,
        request: &Request,
        message: &[u8],
        frames: &mut [u8],
        index: &mut [Span],
        working: &mut [u8],
    ) -> Result<usize, Refusal>
        ensures step { IsStep (suites P.Suite.means G.Suite.means) (held_by self.old) (Send (sending request.now message.now frames.old index.old working.old)) (told Sent result) (held_by self.new) (memories_of_send frames.new index.new working.new) }
        ensures suites { SameSuites self.old self.new }
    {
        let guard = Wipe { octets: working };
        // Kept: no plainer: the suites are of two types, and each has its call of the one generic function.
        match request.place {
            Place::Pairwise(_) => send_over(
                &self.pairwise_suite,
                &mut self.state,
                request,
                message,
                frames,
                index,
                guard.octets,
            ),
            Place::Group(_) => send_over(
                &self.group_suite,
                &mut self.state,
                request,
                message,
                frames,
                index,
                guard.octets,
            ),
        }
    }
}
