//! Requests with unsafe methods (RFC 9110, section 9.2.1) whose clients have gone.
ghost use Rattle.std.specs.Prelude.{◌≡◌};
ghost use Rattle.fair_use.specs.Unanswered.{is_carried_out, may_have_changed};

/// How much of a request its client has sent.
#[derive(Clone, Copy)]
pub enum Upload {
    /// All of it.
    Whole,
    /// Not all of its content.
    Broken,
}

/// Whether a request may have changed what it names, by how much of it its client has sent and by the status of its answer, if one came:
/// where the status is 2xx or 3xx (RFC 9111, section 4.4), and without an answer where the server had all of the request.
pub fn may_have_changed(upload: Upload, status: Option<u16>) -> bool
    ensures { result ≡ may_have_changed upload status }
{
    match (status, upload) {
        (Some(status), _) => is_carried_out(status),
        (None, Upload::Whole) => true,
        (None, Upload::Broken) => false,
    }
}

// Whether this status says that a request was carried out.
fn is_carried_out(status: u16) -> bool
    ensures { result ≡ is_carried_out status }
{
    (200..400).contains(&status)
}
