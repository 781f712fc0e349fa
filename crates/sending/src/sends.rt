// Send, over one suite.
ghost use Rattle.ends.specs.Holding.{held};
ghost use Rattle.ends.specs.Calls.{sending};
ghost use Rattle.ends.specs.Sends.{judge_send};
ghost use Rattle.sending.specs.Sent.{Leaves};

use crate::asked::{Asked, Lengths};
use crate::plans::note_sent;
use crate::sealing::carry_out;
use ends::{Refusal, Request, Span, State};
use suite::Suite;

// Sends a message over the suite of its place. The working memory is left as it happens to be: its owner wipes it.
// Kept: the three memories one by one. A struct of them would be no plainer: each caller lends three memories of its
// own for this one call, and the contract says of each what it holds before and after.
pub fn send_over<S: Suite>(
    suite: &S,
    state: &mut State,
    request: &Request,
    message: &[u8],
    frames: &mut [u8],
    index: &mut [Span],
    working: &mut [u8],
) -> Result<usize, Refusal>
    ensures { Leaves (judge_send S.Suite.means (held state.old) (sending request.now message.now frames.old index.old working.old)) (held state.old) (held state.new) result frames.old frames.new index.old index.new }
{
    let asked = Asked {
        sizes: S::sizes(),
        state,
        request,
        lengths: Lengths {
            message: message.len(),
            frames: frames.len(),
            index: index.len(),
            working: working.len(),
        },
    };
    let outgoing = asked.plan()?;
    carry_out(suite, &outgoing, message, frames, index, working);
    note_sent(state, request.place, outgoing.plan.count as u64);
    Ok(outgoing.plan.count)
}
