// One message of two frames, sent and delivered.
ghost use Rattle.ends.specs.declared.roles.Role.TheVariants.{Base, Logger};
ghost use Rattle.laws.specs.Words.{Crossing};
ghost use Rattle.laws.specs.Laws.{CountersOfFramesDiffer, CountersOfDeliveriesRise, RefusedCallsLeaveNoTrace, SentMessagesAreDelivered};
ghost use Rattle.laws_tests.specs.Run.{both_plain, address, peer, sending_end, hearing_end, reading, coming, GoesOver};

use laws::laws_of_runs;
use suite_tests::plain::Plain;

// What the definitions compute of this run; and it is a run of which the law of delivery speaks.
pub fn a_message_goes_over()
    ensures goes_over { GoesOver }
    ensures crosses { Crossing both_plain both_plain Base Logger (address 2) (address 4) sending_end (peer 5 4) hearing_end (peer 3 2) reading coming }
{}

// The laws at a suite that is built.
pub fn laws_at_the_plain_suite()
    ensures counters_differ { CountersOfFramesDiffer both_plain }
    ensures deliveries_rise { CountersOfDeliveriesRise both_plain }
    ensures refusals_leave_no_trace { RefusedCallsLeaveNoTrace both_plain }
{
    laws_of_runs::<Plain, Plain>();
}
