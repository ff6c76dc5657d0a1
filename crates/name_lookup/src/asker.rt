//! Who asks for names.
use std::net::{IpAddr, Ipv6Addr};

/// The address under which one who asks is counted: one of IPv4 by itself, one of IPv6 by its network of 64 bits, since a host may have
/// each address of such a network (RFC 7934).
pub(crate) fn counted_at(asker: Option<IpAddr>) -> Option<IpAddr> {
    let Some(IpAddr::V6(six)) = asker else {
        return asker;
    };
    let [a, b, c, d, _, _, _, _] = six.segments();
    Some(IpAddr::V6(Ipv6Addr::new(a, b, c, d, 0, 0, 0, 0)))
}
