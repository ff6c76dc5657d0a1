//! What answers and fetches are counted by.

ghost use Rattle.std.specs.Prelude.{◌≡◌};
ghost use Rattle.traffic_figures.specs.Kinds.{class_name, class_place, course_name, course_place, outcome_name, outcome_place, source_place};
ghost use Rattle.traffic_figures.specs.StatusClass.{IsOfClass};

/// How an answer came to be.
#[derive(Clone, Copy)]
pub enum Course {
    /// From a stored object.
    Hit,
    /// By a fetch that this request began.
    Miss,
    /// By a fetch that another request had begun.
    Collapsed,
    /// By a fetch of its own, past the store.
    Bypass,
    /// By the proxy itself: nothing was fetched for it. Connections that brought no request, and clients that left before theirs was
    /// complete, are counted here too.
    Own,
}

impl Course {
    /// All of them, each at its place.
    pub(crate) const ALL: [Course; 5] = [
        Course::Hit,
        Course::Miss,
        Course::Collapsed,
        Course::Bypass,
        Course::Own,
    ];

    /// Its place among all.
    pub(crate) fn place(self) -> usize
        ensures { result ≡ course_place self }
    {
        self as usize
    }

    /// Its name in both texts.
    pub(crate) fn name(self) -> &'static str
        ensures { result.now ≡ course_name self }
    {
        match self {
            Course::Hit => "hit",
            Course::Miss => "miss",
            Course::Collapsed => "collapsed",
            Course::Bypass => "bypass",
            Course::Own => "refused",
        }
    }
}

/// The class of an answer's status (RFC 9110, section 15).
#[derive(Clone, Copy, PartialEq, Eq)]
pub enum StatusClass {
    /// 100 to 199.
    Informational,
    /// 200 to 299.
    Successful,
    /// 300 to 399.
    Redirection,
    /// 400 to 499.
    ClientError,
    /// 500 to 599; and each invalid status, which is to be understood as one of these.
    ServerError,
    /// No status: the connection ended before there was an answer.
    NoAnswer,
}

impl StatusClass {
    /// All of them, each at its place.
    pub(crate) const ALL: [StatusClass; 6] = [
        StatusClass::Informational,
        StatusClass::Successful,
        StatusClass::Redirection,
        StatusClass::ClientError,
        StatusClass::ServerError,
        StatusClass::NoAnswer,
    ];

    /// Its place among all.
    pub(crate) fn place(self) -> usize
        ensures { result ≡ class_place self }
    {
        self as usize
    }

    /// Its name in both texts.
    pub(crate) fn name(self) -> &'static str
        ensures { result.now ≡ class_name self }
    {
        match self {
            StatusClass::Informational => "1xx",
            StatusClass::Successful => "2xx",
            StatusClass::Redirection => "3xx",
            StatusClass::ClientError => "4xx",
            StatusClass::ServerError => "5xx",
            StatusClass::NoAnswer => "none",
        }
    }
}

/// The class of a status; 0 stands for none.
pub fn class_of(status: u16) -> StatusClass
    ensures { IsOfClass status result }
{
    if status == 0 {
        StatusClass::NoAnswer
    } else if status < 100 {
        StatusClass::ServerError
    } else if status < 200 {
        StatusClass::Informational
    } else if status < 300 {
        StatusClass::Successful
    } else if status < 400 {
        StatusClass::Redirection
    } else if status < 500 {
        StatusClass::ClientError
    } else {
        StatusClass::ServerError
    }
}

/// Whom a fetch was made from.
#[derive(Clone, Copy)]
pub enum FetchedFrom {
    /// An origin server.
    Origin,
    /// The neighbour at this place of the configuration, from 0.
    Neighbour(usize),
}

impl FetchedFrom {
    /// The place of its kind: origin servers, then neighbours.
    pub(crate) fn kind(self) -> usize
        ensures { result ≡ source_place self }
    {
        match self {
            FetchedFrom::Origin => 0,
            FetchedFrom::Neighbour(_) => 1,
        }
    }
}

/// How a fetch ended.
#[derive(Clone, Copy, PartialEq, Eq)]
pub enum FetchOutcome {
    /// With a complete response, whatever its status.
    Whole,
    /// Not made: the server is none that may be fetched from.
    Refused,
    /// Without a complete response.
    Failed,
}

impl FetchOutcome {
    /// All of them, each at its place.
    pub(crate) const ALL: [FetchOutcome; 3] = [
        FetchOutcome::Whole,
        FetchOutcome::Refused,
        FetchOutcome::Failed,
    ];

    /// Its place among all.
    pub(crate) fn place(self) -> usize
        ensures { result ≡ outcome_place self }
    {
        self as usize
    }

    /// Its name in both texts.
    pub(crate) fn name(self) -> &'static str
        ensures { result.now ≡ outcome_name self }
    {
        match self {
            FetchOutcome::Whole => "whole",
            FetchOutcome::Refused => "refused",
            FetchOutcome::Failed => "failed",
        }
    }
}
