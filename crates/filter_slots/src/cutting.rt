//! Truncation of a payload by a verdict.

ghost use Rattle.std.specs.Prelude.{◌≡◌};
ghost use Rattle.filter_slots.specs.Cut.{cut_of};

use crate::datagram::Datagram;
use bpf_run::packet::HEADER;

/// Returns the payload of the packet truncated to `value` octets. The first 28 octets of a packet are its header, so the
/// result is empty for a value under 29, and the whole payload if the packet is not longer.
#[inline(always)]
pub fn cut(datagram: &Datagram, value: u32) -> &[u8]
    ensures { result.now ≡ cut_of datagram.now.payload value }
{
    let payload = datagram.payload();
    let most = value.saturating_sub(HEADER as u32) as usize;
    if most < payload.len() {
        &payload[..most]
    } else {
        payload
    }
}
