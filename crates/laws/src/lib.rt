// The laws that hold over whole runs of a link end, whichever two suites it stands over.
#![tactic(auto)]

ghost use Rattle.ends.specs.Places.{Suites, suites, Keep};
ghost use Rattle.laws.specs.Laws.{CountersOfFramesDiffer, CountersOfDeliveriesRise, RefusedCallsLeaveNoTrace, SentMessagesAreDelivered};

use suite::Suite;

// The laws of runs over these two suites. The end at the other side of a message may stand over any two that keep the laws
// of a suite: `delivered_as_sent` says what becomes there of what is sent here, `sent_to_here` the other way round.
pub fn laws_of_runs<P: Suite, G: Suite>()
    ensures counters_differ { CountersOfFramesDiffer (suites P.Suite.means G.Suite.means) }
    ensures deliveries_rise { CountersOfDeliveriesRise (suites P.Suite.means G.Suite.means) }
    ensures refusals_leave_no_trace { RefusedCallsLeaveNoTrace (suites P.Suite.means G.Suite.means) }
    ensures delivered_as_sent { (T : Suites) → Keep T → SentMessagesAreDelivered (suites P.Suite.means G.Suite.means) T }
    ensures sent_to_here { (T : Suites) → Keep T → SentMessagesAreDelivered T (suites P.Suite.means G.Suite.means) }
{}
