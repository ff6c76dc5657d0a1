//! IPv4 networks.
ghost use Rattle.std.specs.Prelude.{◌≡◌};
ghost use Rattle.node_terms.specs.Networks.{first_bits, is_inside};

/// An IPv4 network: the addresses whose first `prefix` bits equal those of `addr`.
#[derive(Clone, Copy)]
pub struct Network {
    /// Any address in the network.
    pub addr: [u8; 4],
    /// The prefix length in bits, 0 to 32.
    pub prefix: u8,
}

impl Network {
    /// Whether an address is in the network.
    pub fn contains(&self, addr: [u8; 4]) -> bool
        ensures { result ≡ is_inside addr self.now }
    {
        first_bits(self.prefix, addr) == first_bits(self.prefix, self.addr)
    }
}

/// The first `prefix` bits of an address, as a number.
fn first_bits(prefix: u8, addr: [u8; 4]) -> u64
    ensures { result ≡ first_bits prefix addr }
{
    let dropped = 32u8.saturating_sub(prefix);
    u32::from_be_bytes(addr) as u64 >> dropped
}
