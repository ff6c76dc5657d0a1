//! The packets of a capture, one after the other.

use crate::fault::ScriptFault;
use crate::moment::time_of;
use capture::{Capture, Link, take_start};
use std::alloc::Global;
use std::io::Read;

/// A packet whose frame was taken.
#[derive(Clone, Copy)]
pub(crate) struct Packet {
    /// Its number in the file, from 1.
    pub(crate) number: u64,
    /// When it came, in milliseconds since 1970.
    pub(crate) time: u64,
    /// The link type of its frame, if it is one that is read.
    pub(crate) link: Option<Link>,
}

/// Where a reader stands in a capture.
#[derive(Drop)]
pub(crate) struct Packets {
    capture: Capture,
    number: u64,
}

impl Packets {
    /// Takes what stands in front of the packets.
    pub(crate) fn open<R: Read>(alloc: Global, reader: &mut R) -> Result<Packets, ScriptFault> {
        match take_start(alloc, reader) {
            Ok(capture) => Ok(Packets { capture, number: 0 }),
            Err(fault) => Err(ScriptFault::Capture { fault, place: 0 }),
        }
    }

    /// Takes the next packet; its octets replace the contents of `frame`. Returns `None` at the end of the file.
    pub(crate) fn take<R: Read>(
        &mut self,
        reader: &mut R,
        frame: &mut Vec<u8>,
    ) -> Result<Option<Packet>, ScriptFault> {
        let head = match self.capture.take_packet(reader, frame) {
            Ok(Some(head)) => head,
            Ok(None) => return Ok(None),
            Err(fault) => {
                return Err(ScriptFault::Capture {
                    fault,
                    place: self.capture.place(),
                });
            }
        };
        self.number = self.number.saturating_add(1);
        Ok(Some(Packet {
            number: self.number,
            time: time_of(head.seconds, head.nanoseconds),
            link: head.link,
        }))
    }
}
