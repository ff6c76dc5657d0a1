//! The state that the threads of a proxy share, by its parts, and a thread's handle to the node.
use crate::kept::Kept;
use crate::lanes::Fetchers;
use crate::mail::Mail;
use crate::outward::Outward;
use crate::passes::Passes;
use crate::starting::Cause;
use crate::stopping::Stopping;
use crate::tap::Tap;
use crate::telling::Telling;
use filter_slots::{End, Moment};
use http_rules::SixEnd;
use name_lookup::NotTaken;
use node_words::{Event, NoMemory};
use object_store::{CacheKey, Entry};
use std::alloc::{AllocError, Global};
use std::net::IpAddr;
use std::sync::Wait;
use std::time::Clock;

/// The state that the threads of a proxy share, by its parts. What is generic over this names only the parts that it uses, where a
/// function that names the whole state costs the prover several times as much (docs/GATE.md).
pub trait Shared: Drop {
    /// The moment of an event that happens now. Returns 0 if a clock cannot be read or is out of range; an event at 0 leaves the node's
    /// clock as it is.
    fn now<R: Clock>(&self, rt: &R) -> Moment;

    /// Waiting clients and fetches under way.
    fn mail(&self) -> &Mail;

    /// The ways to the threads that fetch.
    fn fetchers(&self) -> &Fetchers;

    /// What is asked of other servers, and of which.
    fn outward(&self) -> &Outward;

    /// What is kept of answers beside the store of the node.
    fn kept(&self) -> &Kept;

    /// What passes the proxy without the node.
    fn passes(&self) -> &Passes;

    /// Where the administration hands a capture to the query thread.
    fn tap(&self) -> &Tap;

    /// What is counted and told.
    fn telling(&self) -> &Telling;

    /// The end of the proxy.
    fn stopping(&self) -> &Stopping;

    /// The key of a fetch that the node has pending. Errors: the key cannot get one more owner.
    fn key_of<R: Wait>(&self, rt: &R, fetch: u32) -> Result<Option<CacheKey>, NoMemory>;

    /// What the node has stored under a key that is fresh now. Errors: it cannot get one more owner.
    fn stored<R: Wait>(&self, rt: &R, key: &[u8], now: Moment) -> Result<Option<Entry>, NoMemory>;
}

/// What an event has given a client.
#[derive(Clone, Copy, PartialEq, Eq)]
pub enum Given {
    /// No answer yet.
    Nothing,
    /// An object.
    Object,
    /// A status in place of an object: nothing is fetched for it.
    Refusal,
}

/// Takes events for the node, and carries out their actions.
pub trait TakeEvents: Drop {
    /// Takes an event. Returns the number of its actions; `None` if the event was not taken.
    fn take(&mut self, event: Event) -> Option<usize>;

    /// As `take`, for the request of this client, which has CDN-Loop fields: a fetch for all clients that it begins forwards these.
    fn take_marked(&mut self, event: Event, client: u64) -> Option<usize>;

    /// What the event that was taken last gave a client.
    fn given(&self) -> Given;

    /// As `take`, for the result of a fetch, and what its actions follow from.
    fn take_fetched(&mut self, event: Event, cause: Cause) -> Option<usize>;
}

/// Tells that a look-up was refused that this client asked for, if that is why something was not taken.
pub fn tell_not_taken<R: Wait + Clock, S: Shared>(
    rt: &R,
    alloc: Global,
    proxy: &S,
    asker: Option<IpAddr>,
    fault: NotTaken,
) {
    if let Some(notices) = &proxy.telling().notices
        && fault == NotTaken::Name
    {
        notices.tell_no_look_up(rt, alloc, asker);
    }
}

/// Adds a bound socket of this cache, which is never fetched from and which no tunnel leads to. Errors: out of memory.
pub fn add_own<R: Wait, S: Shared>(rt: &R, proxy: &S, end: End) -> Result<(), AllocError> {
    proxy.passes().add_own(rt, end)?;
    proxy.outward().add_own(rt, end)
}

/// Notes the bound socket of this cache at an address of IPv6, which is never fetched from and which no tunnel leads to.
pub fn note_own_six<R: Wait, S: Shared>(rt: &R, proxy: &S, end: SixEnd) {
    proxy.passes().note_own_six(rt, end);
    proxy.outward().note_own_six(rt, end);
}

/// Notes that what is stored under a key was changed: takes what is on the shelf away, and has what is being fetched given only to
/// those who wait for it, as it may be what was there before. Waits for results that are being handed in, so what these store is
/// stored when this returns, and later ones of what is being fetched now are not.
pub fn withdraw<R: Wait, S: Shared>(rt: &R, proxy: &S, key: &CacheKey) {
    let mail = proxy.mail();
    let _alone = mail.changes.write(rt);
    proxy.kept().unshelve(rt, key);
    mail.outdate(rt, key);
}

/// Shuts down: accepts no more orders, cancels in-flight fetches, and drops waiting clients without an answer.
pub fn close<R: Wait, S: Shared>(rt: &R, proxy: &S) {
    proxy.fetchers().close(rt);
    proxy.mail().mailbox.lock(rt).clear();
}
