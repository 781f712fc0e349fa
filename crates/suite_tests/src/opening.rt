// A body opened over any suite: the faults of head and open pass up by `?`, and working memory ends as zeros.
ghost use Rattle.std.specs.Prelude.{◌≡◌, ◌≤◌, length, replicate};
ghost use Rattle.frame.specs.Headers.{header_length};
ghost use Rattle.suite_tests.specs.Opening.{piece_length};

use octets::Wipe;
use suite::{PieceFault, Suite};

// How long the piece of a body is.
pub fn piece_length<S: Suite>(
    suite: &S,
    key: &[u8],
    header: &[u8],
    body: &[u8],
    working: &mut [u8],
) -> Result<usize, PieceFault>
    requires key { length key.now ≡ S.Suite.means.sizes.key }
    requires header { length header.now ≡ header_length }
    requires room { length body.now ≤ length working.old }
    ensures wiped { working.new ≡ replicate (length working.old) 0 }
    ensures answer { result ≡ piece_length (S.Suite.means.head body.now) (S.Suite.means.opens key.now header.now body.now) }
{
    let guard = Wipe { octets: working };
    suite.head(body)?;
    Ok(suite.open(key, header, body, guard.octets)?)
}
