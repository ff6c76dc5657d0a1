//! Datagram counters.
ghost use Rattle.std.specs.Prelude.{◌≡◌};
ghost use Rattle.node_core.specs.Raised.{raised, raised_at};

use filter_slots::Socket;
use node_words::{Counters, Stats};

/// All counters at 0.
pub(crate) const ZERO: Counters = Counters {
    judged: 0,
    rejected: 0,
    cut: 0,
    malformed: 0,
};

/// One socket's counters after one more datagram.
fn raised(counters: Counters, rejected: bool, cut: bool, malformed: bool) -> Counters
    ensures { result ≡ raised counters rejected cut malformed }
{
    Counters {
        judged: counters.judged.saturating_add(1),
        rejected: counters.rejected.saturating_add(rejected as u64),
        cut: counters.cut.saturating_add(cut as u64),
        malformed: counters.malformed.saturating_add(malformed as u64),
    }
}

/// The counters after one more datagram at this socket.
pub(crate) fn raised_at(
    socket: Socket,
    stats: Stats,
    rejected: bool,
    cut: bool,
    malformed: bool,
) -> Stats
    ensures { result ≡ raised_at socket stats rejected cut malformed }
{
    match socket {
        Socket::Icp => Stats {
            icp: raised(stats.icp, rejected, cut, malformed),
            htcp: stats.htcp,
        },
        Socket::Htcp => Stats {
            icp: stats.icp,
            htcp: raised(stats.htcp, rejected, cut, malformed),
        },
    }
}
