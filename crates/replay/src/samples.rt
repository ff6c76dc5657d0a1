//! The first datagrams of each kind.

use bpf_run::{End, Socket};
use capture::UdpView;
use std::alloc::{AllocError, Global};

/// The most datagrams of a kind that are kept.
pub const MOST_SAMPLES: usize = 10;

/// The most octets that are kept of a payload.
pub const MOST_FRONT: usize = 32;

/// A datagram of a capture.
#[derive(Drop)]
pub struct Sample {
    /// The number of its record in the file, from 1.
    pub number: u64,
    /// The socket that it is for.
    pub socket: Socket,
    /// Its source.
    pub from: End,
    /// The number of octets of its payload.
    pub octets: usize,
    /// The first octets of its payload, at most 32.
    pub front: Vec<u8>,
}

/// The first ten datagrams of a kind.
#[derive(Drop)]
pub struct Samples {
    kept: Vec<Sample>,
}

impl Samples {
    /// None so far.
    pub fn new(alloc: Global) -> Samples {
        Samples {
            kept: Vec::new(alloc),
        }
    }

    /// Keeps a datagram, unless there are ten already. Errors: out of memory.
    pub fn keep(
        &mut self,
        alloc: Global,
        number: u64,
        socket: Socket,
        datagram: &UdpView<'_>,
    ) -> Result<(), AllocError> {
        if self.kept.len() >= MOST_SAMPLES {
            return Ok(());
        }
        let payload = datagram.payload;
        let mut front = Vec::new(alloc);
        front.extend_from_slice(&payload[..payload.len().min(MOST_FRONT)])?;
        self.kept.push(Sample {
            number,
            socket,
            from: datagram.from,
            octets: payload.len(),
            front,
        })?;
        Ok(())
    }

    /// The datagrams, in the order of the file.
    pub fn kept(&self) -> &[Sample] {
        &self.kept
    }
}
