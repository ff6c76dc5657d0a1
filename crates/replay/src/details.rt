//! Who sent what is rejected, which opcodes it has, and where the runs ended.

use crate::finding::Judged;
use crate::senders::Senders;
use bpf_run::{End, Socket};
use std::alloc::{AllocError, Global};

/// Numbers of judged datagrams. Saturating.
#[derive(Clone, Copy)]
pub struct Share {
    pub datagrams: u64,
    /// Those with verdict 0.
    pub rejected: u64,
}

/// A sender and its datagrams.
#[derive(Clone, Copy)]
pub struct Sender {
    pub address: [u8; 4],
    pub share: Share,
}

/// Datagrams by sender, by opcode and by the instruction that ended their run. Memory is bounded: the datagrams of senders that
/// come after the first 65,536 ones are counted together.
#[derive(Drop)]
pub struct Details {
    ends: Vec<u64>,
    icp: Vec<Share>,
    htcp: Vec<Share>,
    senders: Senders,
}

impl Share {
    /// No datagrams.
    pub const NONE: Share = Share {
        datagrams: 0,
        rejected: 0,
    };

    /// The numbers after one more datagram.
    pub fn counted(self, rejected: bool) -> Share {
        Share {
            datagrams: self.datagrams.saturating_add(1),
            rejected: self.rejected.saturating_add(rejected as u64),
        }
    }
}

impl Details {
    /// No datagrams, for a program with this number of instructions.
    pub fn new(alloc: Global, instructions: usize) -> Result<Details, AllocError> {
        let mut ends = Vec::new(alloc);
        ends.resize(instructions, 0)?;
        let mut icp = Vec::new(alloc);
        icp.resize(256, Share::NONE)?;
        let mut htcp = Vec::new(alloc);
        htcp.resize(16, Share::NONE)?;
        Ok(Details {
            ends,
            icp,
            htcp,
            senders: Senders::new(alloc)?,
        })
    }

    /// Counts one more datagram. Errors: out of memory.
    pub fn count(
        &mut self,
        socket: Socket,
        from: End,
        payload: &[u8],
        judged: &Judged,
    ) -> Result<(), AllocError> {
        let rejected = judged.finding.value == 0;
        if let Some(end) = self.ends.get_mut(judged.end) {
            *end = end.saturating_add(1);
        }
        if let Some(opcode) = self.opcode_mut(socket, payload) {
            *opcode = opcode.counted(rejected);
        }
        self.senders.count(from.addr, rejected)
    }

    /// Counts the senders of the last datagrams; before this what is answered about senders lacks up to 63 of them. Errors: out of
    /// memory.
    pub fn settle(&mut self) -> Result<(), AllocError> {
        self.senders.settle()
    }

    // The numbers of a payload's opcode, or `None` if it is too short to have one.
    fn opcode_mut(&mut self, socket: Socket, payload: &[u8]) -> Option<&mut Share> {
        match socket {
            Socket::Icp => self.icp.get_mut(*payload.first()? as usize),
            Socket::Htcp => self.htcp.get_mut((*payload.get(6)? / 16) as usize),
        }
    }

    /// By instruction, the number of datagrams whose run it ended.
    pub fn ends(&self) -> &[u64] {
        &self.ends
    }

    /// By opcode, the datagrams at the ICP socket.
    pub fn icp(&self) -> &[Share] {
        &self.icp
    }

    /// By opcode, the datagrams at the HTCP socket.
    pub fn htcp(&self) -> &[Share] {
        &self.htcp
    }

    /// The datagrams of the senders that are not counted one by one.
    pub fn rest(&self) -> Share {
        self.senders.rest()
    }

    /// The at most twenty senders with most rejected datagrams, of those that have any: the most first, and of two with as many
    /// the one with the lower address. Errors: out of memory.
    pub fn most_rejected(&self, alloc: Global) -> Result<Vec<Sender>, AllocError> {
        self.senders.most_rejected(alloc)
    }
}
