//! What replies to queries of neighbours are counted by.

ghost use Rattle.std.specs.Prelude.{◌≡◌, ◌<◌, ◌↔◌, IfSome, IsNone};
ghost use Rattle.traffic_figures.specs.Replies.{IsHtcpReply, IsIcpReply, reply_name, reply_place};

/// A kind of reply to a query of a neighbour. The first five are of ICP (RFC 2186), the next two of HTCP (RFC 2756).
#[derive(Clone, Copy, PartialEq, Eq)]
pub enum ReplyKind {
    /// The neighbour has the object: ICP_OP_HIT, or ICP_OP_HIT_OBJ, which brings it too.
    Hit,
    /// It doesn't have the object, and may be asked to fetch it: ICP_OP_MISS.
    Miss,
    /// The query is refused: ICP_OP_DENIED.
    Denied,
    /// It doesn't have the object, and isn't to be asked to fetch it: ICP_OP_MISS_NOFETCH.
    MissNoFetch,
    /// It could not read or handle the query: ICP_OP_ERR.
    Error,
    /// The object is found: the response to a TST with code 0.
    Found,
    /// The object isn't found: the response to a TST with code 1.
    NotFound,
    /// Any other reply. In HTCP all responses to other requests than TST are among these, and all whose code is for the message as a
    /// whole (MO set).
    Other,
}

impl ReplyKind {
    /// All of them, each at its place.
    pub(crate) const ALL: [ReplyKind; 8] = [
        ReplyKind::Hit,
        ReplyKind::Miss,
        ReplyKind::Denied,
        ReplyKind::MissNoFetch,
        ReplyKind::Error,
        ReplyKind::Found,
        ReplyKind::NotFound,
        ReplyKind::Other,
    ];

    /// Its place among all.
    pub(crate) fn place(self) -> usize
        ensures { result ≡ reply_place self }
    {
        self as usize
    }

    /// Its name in all texts.
    pub(crate) fn name(self) -> &'static str
        ensures { result.now ≡ reply_name self }
    {
        match self {
            ReplyKind::Hit => "hit",
            ReplyKind::Miss => "miss",
            ReplyKind::Denied => "denied",
            ReplyKind::MissNoFetch => "miss_nofetch",
            ReplyKind::Error => "error",
            ReplyKind::Found => "found",
            ReplyKind::NotFound => "not_found",
            ReplyKind::Other => "other",
        }
    }
}

/// The kind of an ICP message with this opcode (RFC 2186). `None` if it is no reply: 0 is invalid, and 1 a query.
pub fn icp_reply(opcode: u8) -> Option<ReplyKind>
    ensures kind { IfSome result (λ kind. IsIcpReply opcode kind) }
    ensures none { IsNone result ↔ (opcode < 2) }
{
    match opcode {
        0 | 1 => None,
        2 | 23 => Some(ReplyKind::Hit),
        3 => Some(ReplyKind::Miss),
        4 => Some(ReplyKind::Error),
        21 => Some(ReplyKind::MissNoFetch),
        22 => Some(ReplyKind::Denied),
        _ => Some(ReplyKind::Other),
    }
}

/// The kind of an HTCP response with this opcode, response code and flag MO (RFC 2756, sections 2.7 and 6.2).
pub fn htcp_reply(opcode: u8, code: u8, is_overall: bool) -> ReplyKind
    ensures { IsHtcpReply opcode code is_overall result }
{
    match (opcode, code, is_overall) {
        (1, 0, false) => ReplyKind::Found,
        (1, 1, false) => ReplyKind::NotFound,
        _ => ReplyKind::Other,
    }
}
