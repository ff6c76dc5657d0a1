//! Message types, borrowed from the datagram.

ghost use Rattle.std.specs.Prelude.{◌≡◌, ◌≢◌, MatchOption};
ghost use Rattle.icp_packet.specs.Message.{code};

/// ICP opcodes (RFC 2186, "ICP Opcodes").
#[derive(Clone, Copy, PartialEq, Eq)]
pub enum Opcode {
    /// Query: is the object with this URL stored?
    Query,
    /// Reply: the object is stored.
    Hit,
    /// Reply: the object is not stored, but may be fetched through the replying cache.
    Miss,
    /// Reply: the query could not be parsed or processed.
    Error,
    /// Simulated query to an origin server, returned by its UDP echo port.
    Secho,
    /// Simulated query to a cache that does not support ICP, returned by its UDP echo port.
    Decho,
    /// Reply: the object is not stored, and must not be fetched through the replying cache.
    MissNoFetch,
    /// Reply: the querying host may not retrieve the object from this cache.
    Denied,
    /// Reply: the object is stored, and is included in the message.
    HitObject,
}

impl Opcode {
    /// The opcode as an octet.
    pub fn code(self) -> u8
        ensures { result ≡ code self }
    {
        match self {
            Opcode::Query => 1,
            Opcode::Hit => 2,
            Opcode::Miss => 3,
            Opcode::Error => 4,
            Opcode::Secho => 10,
            Opcode::Decho => 11,
            Opcode::MissNoFetch => 21,
            Opcode::Denied => 22,
            Opcode::HitObject => 23,
        }
    }

    /// Returns the opcode for an octet, or `None` if there is none.
    pub fn from_code(octet: u8) -> Option<Opcode>
        ensures { MatchOption result ((op : Opcode) → octet ≢ code op) (λ op. octet ≡ code op) }
    {
        match octet {
            1 => Some(Opcode::Query),
            2 => Some(Opcode::Hit),
            3 => Some(Opcode::Miss),
            4 => Some(Opcode::Error),
            10 => Some(Opcode::Secho),
            11 => Some(Opcode::Decho),
            21 => Some(Opcode::MissNoFetch),
            22 => Some(Opcode::Denied),
            23 => Some(Opcode::HitObject),
            _ => None,
        }
    }
}

/// The payload, which follows the header. A URL is given without its terminating zero octet.
#[derive(Clone, Copy, PartialEq, Eq)]
pub enum IcpBody<'a> {
    /// Of a query: the address of the requesting client, and a URL.
    Query {
        /// IPv4 address of the client that the query is for.
        requester: [u8; 4],
        /// URL.
        url: &'a [u8],
    },
    /// Of every opcode but `Query` and `HitObject`: a URL.
    Url(&'a [u8]),
    /// Of `HitObject`: a URL and the stored object.
    Object {
        /// URL.
        url: &'a [u8],
        /// Object data.
        object: &'a [u8],
    },
}

/// A message of ICP version 2 (RFC 2186, "ICP Message Format").
#[derive(Clone, Copy, PartialEq, Eq)]
pub struct IcpView<'a> {
    /// Opcode.
    pub op: Opcode,
    /// Request number. A reply repeats the number of its query.
    pub number: u32,
    /// Option flags.
    pub options: u32,
    /// Option data.
    pub option_data: u32,
    /// Sender host address field: an IPv4 address as claimed by the sender, not verified.
    pub sender: [u8; 4],
    /// Payload. It must match the opcode.
    pub body: IcpBody<'a>,
}
