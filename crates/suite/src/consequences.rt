// What follows from the laws of a suite, whichever it is.
ghost use Rattle.suite.specs.Laws.{OnePiece, LongRefused};

use crate::suites::Suite;

// No two pieces seal to one body, and a body that is too long for any piece gets that fault.
pub fn laws_follow<S: Suite>()
    ensures one_piece { OnePiece S.Suite.means }
    ensures long_refused { LongRefused S.Suite.means }
{}
