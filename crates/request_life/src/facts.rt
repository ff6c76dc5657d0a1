//! What is known of a request before anything is done for it. The rules of `http_rules` compute it from the head, the store and the
//! configuration.
use node_terms::Mode;

/// The method of a request (RFC 9110, section 9), as far as its life depends on it.
#[derive(Clone, Copy)]
pub enum Method {
    Get,
    Head,
    Connect,
    Other,
}

/// The head of a request.
#[derive(Clone, Copy)]
pub struct RequestHead {
    pub method: Method,
    /// Whether the method is unsafe (RFC 9110, section 9.2.1).
    pub is_unsafe: bool,
    /// Whether requests with this method are passed on.
    pub has_passage: bool,
    /// Whether CONNECT opens tunnels.
    pub has_tunnels: bool,
    /// Whether a HEAD is answered from the store.
    pub answers_heads: bool,
    /// Whether it has a transfer coding other than chunked (RFC 9112, section 6.1).
    pub has_foreign_coding: bool,
    /// Whether its content is announced to be longer than may be collected.
    pub is_too_long: bool,
    /// Whether it has content that is collected: not where it is refused whatever that is, which ends its connection.
    pub has_content: bool,
    /// Whether it has content that is passed on as it comes.
    pub has_upload: bool,
    /// Whether its Connection fields have too many options, so that none of its own fields can be sent on.
    pub has_many_options: bool,
    /// Whether it has CDN-Loop fields (RFC 8586).
    pub has_loop_marks: bool,
    /// Whether its client may be given an answer while that is collected: it is a plain GET of HTTP/1.1, and answers are streamed.
    pub is_streamed: bool,
    /// Whether its connection ends after the answer (RFC 9112, section 9.3).
    pub is_last: bool,
}

/// What the target of a request is.
#[derive(Clone, Copy)]
pub enum Target {
    /// A URL, or one stands for it.
    Url,
    /// No http URL, or its Host is no valid value, or the name of its server is longer than any can be.
    NotHttp,
    /// A URL that is too long.
    TooLong,
    /// Not known, since memory is short.
    NoMemory,
}

/// How a request is to be answered by RFC 9111 (`http_rules::choose`).
#[derive(Clone, Copy)]
pub enum Choice {
    Ask(Mode),
    /// Not at all, with this status.
    Refuse(u16),
}

/// What is known once a request is complete that the node may answer.
#[derive(Clone, Copy)]
pub struct Lookup {
    pub target: Target,
    pub choice: Choice,
    /// Whether something fresh is stored under its key.
    pub is_stored: bool,
    /// Whether its answer is known to be too long to be stored, and such answers are passed on.
    pub is_long: bool,
    /// Whether it has come through this cache before (RFC 8586).
    pub has_come_back: bool,
    /// Whether its host is an address that may not be fetched from.
    pub is_barred: bool,
    /// Whether what is being fetched under its key was changed meanwhile.
    pub is_overtaken: bool,
    /// Whether something stale is there that its client accepts without a fetch (RFC 9111, section 5.2.1.2).
    pub has_accepted_stale: bool,
    /// Whether it is the third for a part of what is not stored, so that the whole is fetched for all.
    pub is_third_part: bool,
}

/// What is known of a request that is to be passed on.
#[derive(Clone, Copy)]
pub struct Passage {
    pub target: Target,
    pub has_come_back: bool,
    pub is_barred: bool,
    /// Whether Max-Forwards says that this cache is its last recipient (RFC 9110, section 7.6.2).
    pub is_last_recipient: bool,
    /// Whether its Connection fields have too many options.
    pub has_many_options: bool,
    /// Whether there is somebody to pass it on to, and room for it.
    pub has_room: bool,
}

/// What is known of the end that a tunnel is to lead to.
#[derive(Clone, Copy)]
pub struct TunnelTarget {
    /// Whether the target is a host and a port (RFC 9110, section 9.3.6).
    pub is_authority: bool,
    pub is_port_allowed: bool,
    pub has_come_back: bool,
    pub is_barred: bool,
    /// Whether there is room for one more tunnel, and a way there.
    pub has_room: bool,
}
