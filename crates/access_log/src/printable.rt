//! That what a line has of an address is printable. These functions do nothing: their contracts are what a proof knows of a type only where
//! a call takes a value of it.
ghost use Rattle.std.specs.List.{list_all};
ghost use Rattle.std.specs.Net.Addr.{ipv6_segments};
ghost use Rattle.std.specs.Net.Text.{ipv6_text};
ghost use Rattle.std.specs.Prelude.{◌≡◌, true};
ghost use Rattle.access_log.specs.Escaped.{is_printable};
ghost use Rattle.access_log.specs.Line.{address_text, octets_text};

use std::net::{IpAddr, Ipv6Addr};

// So are the octets of an address of IPv4.
fn octets_are_printable(octets: [u8; 4])
    ensures { list_all is_printable (octets_text octets) ≡ true }
{}

// So is an address of IPv6.
fn six_is_printable(address: Ipv6Addr)
    ensures { list_all is_printable (ipv6_text (ipv6_segments address)) ≡ true }
{}

/// So is an address.
#[tactic(auto, unfolding(crate::specs::Line::address_text))]
pub(crate) fn address_is_printable(address: IpAddr)
    ensures { list_all is_printable (address_text address) ≡ true }
{
    match address {
        IpAddr::V4(address) => octets_are_printable(address.octets()),
        IpAddr::V6(address) => six_is_printable(address),
    }
}
