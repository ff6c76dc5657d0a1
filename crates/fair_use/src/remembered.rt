//! The life of what was found once, as the addresses of a name: for how long it is used, when it is asked anew, and what is used
//! meanwhile (RFC 8767, section 5). All times are in milliseconds.
ghost use Rattle.std.specs.Prelude.{◌≡◌, if◌then◌else◌};
ghost use Rattle.fair_use.specs.declared.remembered.Use.TheVariants.{AskAnew, Old};
ghost use Rattle.fair_use.specs.Remembered.{use_at, is_since, once_failed, once_found, patience};

/// When something was found, and when it was last sought in vain since then. Moments are counted from any common one.
#[derive(Clone, Copy)]
pub struct Known {
    pub found: Option<u64>,
    pub failed: Option<u64>,
}

/// How long what is known is used, and how long something is waited for.
#[derive(Clone, Copy)]
pub struct Spans {
    /// How long what was found is fresh.
    pub fresh: u64,
    /// How long it is kept in all.
    pub kept: u64,
    /// How long it is not asked anew after a failure, where something is kept.
    pub again: u64,
    /// How long a failure is kept where nothing else is.
    pub failed: u64,
    /// After how long one who waits is given what is known.
    pub old_after: u64,
    /// After how long one who waits gives up where nothing is known.
    pub gives_up_after: u64,
}

/// What is done about something that is sought.
#[derive(Clone, Copy)]
pub enum Use {
    /// What is known is used.
    Fresh,
    /// What is known is used, though it is older than its time: it was sought in vain lately.
    Old,
    /// It is asked anew, and what is known is there meanwhile.
    AskAnew,
    /// It was sought in vain lately.
    Failed,
    /// It is asked, and nothing is there meanwhile.
    Ask,
}

/// What becomes of one who waits.
#[derive(Clone, Copy)]
pub enum Waited {
    /// It waits on.
    Waits,
    /// It is given what is known.
    HasOld,
    /// It gives up.
    GivesUp,
}

// Whether a moment, if there was one, is less than this long ago.
fn is_since(moment: Option<u64>, span: u64, now: u64) -> bool
    ensures { result ≡ is_since moment span now }
{
    match moment {
        Some(at) => now.saturating_sub(at) < span,
        None => false,
    }
}

impl Known {
    /// What is known of what was found now.
    pub fn once_found(now: u64) -> Known
        ensures { result ≡ once_found now }
    {
        Known {
            found: Some(now),
            failed: None,
        }
    }

    /// What is known once this was sought in vain. What was found before stays, unless the failure says that there is none any more.
    pub fn once_failed(self, is_gone: bool, now: u64) -> Known
        ensures { result ≡ once_failed self is_gone now }
    {
        Known {
            found: if is_gone { None } else { self.found },
            failed: Some(now),
        }
    }

    /// What is done about something of which this is known, and that is sought now.
    pub fn use_at(self, spans: Spans, now: u64) -> Use
        ensures { result ≡ use_at self spans now }
    {
        if is_since(self.found, spans.fresh, now) {
            return Use::Fresh;
        }
        if is_since(self.found, spans.kept, now) {
            return of_old(is_since(self.failed, spans.again, now));
        }
        if is_since(self.failed, spans.failed, now) {
            Use::Failed
        } else {
            Use::Ask
        }
    }
}

// What is done about what is older than its time.
fn of_old(has_failed: bool) -> Use
    ensures { result ≡ (if has_failed then Old else AskAnew) }
{
    if has_failed { Use::Old } else { Use::AskAnew }
}

/// What becomes of one who has waited for so long, given whether something is known.
pub fn patience(waited: u64, spans: Spans, has_old: bool) -> Waited
    ensures { result ≡ patience waited spans has_old }
{
    if has_old {
        return if waited < spans.old_after {
            Waited::Waits
        } else {
            Waited::HasOld
        };
    }
    if waited < spans.gives_up_after {
        Waited::Waits
    } else {
        Waited::GivesUp
    }
}
