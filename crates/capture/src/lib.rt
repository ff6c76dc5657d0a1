//! Reads captures of network traffic, packet by packet, and the UDP datagram in each frame: classic pcap files, as `tcpdump -w`
//! writes them, and pcapng files, as dumpcap and Wireshark do. Memory is bounded by one block of 1,048,576 octets and 65,536
//! interfaces, whatever the file. And writes captures of datagrams as pcapng files, which tcpdump and Wireshark read: what became of a
//! datagram is the interface on which the file has it, `accepted`, `cut` or `rejected`.
//!
//! `specs/Udp.antt` and `specs/Link.antt` define which datagram a frame holds, by its link type and its headers;
//! `specs/Packet.antt` which packet stands in front of a file's octets, and what the file says of it: in a record (`specs/Head.antt`,
//! `specs/Record.antt`) or in a block (`specs/Block.antt`, `specs/Blocks.antt`, `specs/Interface.antt`, `specs/Moment.antt`).
//! `specs/Written.antt` defines the octets of a written file's blocks, and `specs/Headers.antt` those of the IPv4 packet that is made of
//! a datagram.
//! Contracts see a frame and a block as the list of its octets, and of a reader what it has left.
//! Tested by: crates/test_codecs, tests/serve, more-edits.
#![tactic(auto)]

mod block;
mod fate;
mod fault;
mod file;
mod head;
mod headers;
mod interface;
mod link;
mod order;
mod packet;
mod reading;
mod record;
mod udp;
mod written;

pub use block::MOST_BLOCK;
pub use fate::Fate;
pub use fault::CaptureFault;
pub use file::{FileHead, take_head};
pub use head::PacketHead;
pub use interface::Interface;
pub use link::{Link, packet_in};
pub use order::Order;
pub use reading::{Capture, Form, MOST_INTERFACES, take_start};
pub use record::{MOST_OCTETS, RecordHead, take_record};
pub use udp::{UdpView, udp_at, udp_in};
pub use written::{COUNTS_OCTETS, HEAD_OCTETS, counts_block, datagram_block, file_head};
