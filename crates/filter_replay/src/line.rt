//! The lines of a script.

ghost use Rattle.std.specs.Prelude.{◌≡◌, ◌++◌, codes, decimal, OnOk};
ghost use Rattle.filter_replay.specs.Line.{address_text, datagram_text, end_text, octets_text, socket_text};

use bpf_run::{End, Moment, Socket};
use std::alloc::{AllocError, Global};

fn push_number(out: &mut Vec<u8>, number: u64) -> Result<(), AllocError>
    ensures { OnOk result (out.new.items ≡ out.old.items ++ decimal number) }
{
    let mut buffer = itoa::Buffer::new();
    out.extend_from_slice(buffer.format(number).as_bytes())
}

fn push_octets(out: &mut Vec<u8>, alloc: Global, octets: &[u8]) -> Result<(), AllocError>
    ensures { OnOk result (out.new.items ≡ out.old.items ++ octets_text octets.now) }
{
    if octets.is_empty() {
        out.extend_from_slice(b"-")
    } else {
        let text = hex::encode(alloc, octets)?;
        out.extend_from_slice(text.as_str().as_bytes())
    }
}

fn push_address(out: &mut Vec<u8>, addr: [u8; 4]) -> Result<(), AllocError>
    ensures { OnOk result (out.new.items ≡ out.old.items ++ address_text addr) }
{
    push_number(out, u64::from(addr[0]))?;
    out.extend_from_slice(b".")?;
    push_number(out, u64::from(addr[1]))?;
    out.extend_from_slice(b".")?;
    push_number(out, u64::from(addr[2]))?;
    out.extend_from_slice(b".")?;
    push_number(out, u64::from(addr[3]))
}

fn push_end(out: &mut Vec<u8>, end: End) -> Result<(), AllocError>
    ensures { OnOk result (out.new.items ≡ out.old.items ++ end_text end) }
{
    push_address(out, end.addr)?;
    out.extend_from_slice(b":")?;
    push_number(out, u64::from(end.port))
}

fn push_socket(out: &mut Vec<u8>, socket: Socket) -> Result<(), AllocError>
    ensures { OnOk result (out.new.items ≡ out.old.items ++ socket_text socket) }
{
    match socket {
        Socket::Icp => out.extend_from_slice(b"icp"),
        Socket::Htcp => out.extend_from_slice(b"htcp"),
    }
}

/// Appends the line that delivers a datagram, without its line break. Errors: out of memory.
pub(crate) fn push_datagram(
    out: &mut Vec<u8>,
    alloc: Global,
    socket: Socket,
    from: End,
    payload: &[u8],
    now: Moment,
) -> Result<(), AllocError>
    ensures { OnOk result (out.new.items ≡ out.old.items ++ datagram_text socket from payload.now now) }
{
    out.extend_from_slice(b"d ")?;
    push_socket(out, socket)?;
    out.extend_from_slice(b" ")?;
    push_end(out, from)?;
    out.extend_from_slice(b" ")?;
    push_octets(out, alloc, payload)?;
    out.extend_from_slice(b" ")?;
    push_number(out, now.millis())
}
