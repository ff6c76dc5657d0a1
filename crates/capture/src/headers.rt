//! The headers of the IPv4 packet that a written file has a datagram in.
ghost use Rattle.std.specs.Prelude.{◌≡◌, ◌+◌, ◌<◌, ◌≤◌, length};
ghost use Rattle.capture.specs.Headers.{checksum, header_front, pair, udp_header, word_sum};

use bpf_run::End;
use byteorder::{BigEndian, ByteOrder};

/// The header of a packet of `total` octets up to its addresses.
pub(crate) fn header_front(total: u16, checksum: u16) -> [u8; 12]
    ensures { result ≡ header_front total checksum }
{
    let mut octets = [0; 12];
    octets[0] = 0x45;
    BigEndian::write_u16(&mut octets[2..], total);
    octets[8] = 64;
    octets[9] = 17;
    BigEndian::write_u16(&mut octets[10..], checksum);
    octets
}

// The 16-bit word at this place.
fn pair(address: &[u8; 4], at: usize) -> u16
    requires { at + 2 ≤ 4 }
    ensures { result ≡ pair address.now at }
{
    BigEndian::read_u16(&address[at..])
}

// The sum of the words of a header other than its checksum.
fn word_sum(total: u16, from: End, to: End) -> u32
    ensures { result ≡ word_sum total from to }
{
    0x4500
        + u32::from(total)
        + 0x4011
        + u32::from(pair(&from.addr, 0))
        + u32::from(pair(&from.addr, 2))
        + u32::from(pair(&to.addr, 0))
        + u32::from(pair(&to.addr, 2))
}

/// The checksum of the header of a packet of `total` octets.
pub(crate) fn checksum(total: u16, from: End, to: End) -> u16
    ensures { result ≡ checksum total from to }
{
    let sum = word_sum(total, from, to);
    ((65535 - sum % 65535) % 65535) as u16
}

/// The UDP header of a payload of `octets` octets.
pub(crate) fn udp_header(octets: u16, from: End, to: End) -> [u8; 8]
    requires { octets ≤ 65507 }
    ensures { result ≡ udp_header octets from to }
{
    let mut header = [0; 8];
    BigEndian::write_u16(&mut header, from.port);
    BigEndian::write_u16(&mut header[2..], to.port);
    BigEndian::write_u16(&mut header[4..], 8 + octets);
    header
}
