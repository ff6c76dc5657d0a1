//! The interface between a loop that makes events and sends datagrams, and the node that takes the events.
ghost use Rattle.std.specs.Prelude.{◌≡◌, ◌≤◌, ◌+◌, ◌∷◌, [], ℕ, Option, Some, IfOk, IfSome, OnOk, OnErr, IsErrOf, ◌↔◌};
ghost use Rattle.std.specs.Option.{option_map};
ghost use Rattle.std.specs.Arc.{arc_value};
ghost use Rattle.pending_fetch.specs.Fetches.{fetch_of};
ghost use Rattle.filter_slots.specs.Filters.{Filters};
ghost use Rattle.filter_slots.specs.Judged.{judged_under};
ghost use Rattle.node_core.specs.Happening.{arrives, happening};
ghost use Rattle.node_book.specs.Told.{Told, Submits, passing};

use crate::NoMemory;
use crate::ledgered::SubmitFault;
use filter_slots::{Datagram, Judged, Moment};
use node_core::{Action, Answer, Event, Out, Payload};
use object_store::CacheKey;
use std::alloc::Global;
use std::sync::Arc;

/// Takes events for a node, one at a time, and accepts the actions other than sends, which the caller doesn't carry out itself.
pub trait Clerk {
    // What is known of the clerk: of its node, unless other threads submit events to it as well, of its seat, and of the actions
    // passed on.
    ghost told: { Self → Told };

    // Number of events taken through this clerk.
    ghost taken: { Self → ℕ };

    // The programs that it judges datagrams by, if it has read them.
    ghost programs: { Self → Option Filters };

    /// Submits an event, writes its actions to `out`, which must be empty, and returns the event's number, which is at least the
    /// number of events taken through this clerk before. The clerk's seat, if it has one, keeps the receipt. On error the event is
    /// not taken, the seat is unchanged, and `out` is empty.
    fn submit(
        &mut self,
        alloc: Global,
        event: Arc<Event>,
        out: &mut Out,
    ) -> Result<u64, SubmitFault>
        requires { out.old ≡ [] }
        ensures taken { IfOk result (λ number. Submits (told self.old) (told self.new) number (happening (arc_value event)) out.new) }
        ensures counted { OnOk result (taken self.new ≡ taken self.old + 1) }
        ensures number { IfOk result (λ number. taken self.old ≤ number) }
        ensures refused { OnErr result ((told self.new ≡ told self.old) × (taken self.new ≡ taken self.old) × (out.new ≡ [])) }
        ensures ended { IfSome (told self.old).node (λ n. IsErrOf result SubmitFault.Ended ↔ (n.next ≡ 18446744073709551615)) };

    /// As `submit`, for the arrival at `now` of a datagram that was judged before. The verdict it carries is used if both of its
    /// programs equal those in force (two absent programs are equal); otherwise the datagram is judged again.
    fn submit_judged(
        &mut self,
        alloc: Global,
        judged: &Judged,
        now: Moment,
        out: &mut Out,
    ) -> Result<u64, SubmitFault>
        requires { out.old ≡ [] }
        ensures taken { IfOk result (λ number. Submits (told self.old) (told self.new) number (arrives judged.now.datagram now) out.new) }
        ensures counted { OnOk result (taken self.new ≡ taken self.old + 1) }
        ensures number { IfOk result (λ number. taken self.old ≤ number) }
        ensures refused { OnErr result ((told self.new ≡ told self.old) × (taken self.new ≡ taken self.old) × (out.new ≡ [])) }
        ensures ended { IfSome (told self.old).node (λ n. IsErrOf result SubmitFault.Ended ↔ (n.next ≡ 18446744073709551615)) };

    /// Judges a datagram by the programs in force, or, if other threads may swap them, by those in force when the clerk last read
    /// them, and shares those that judge it. Errors: allocation failure, or a reference count at its maximum.
    fn judge(&mut self, datagram: Arc<Datagram>) -> Result<Judged, NoMemory>
        ensures same { told self.new ≡ told self.old }
        ensures counted { taken self.new ≡ taken self.old }
        ensures datagram { IfOk result (λ judged. judged.datagram ≡ arc_value datagram) }
        ensures programs { IfOk result (λ judged. (p : Filters) × (programs self.new ≡ Some p) × (judged ≡ judged_under p (arc_value datagram))) }
        ensures present { IfOk result (λ judged. IfSome (told self.old).node (λ n. judged ≡ judged_under n.state.filters (arc_value datagram))) };

    /// Accepts an action that is not a send. Errors: allocation failure; nothing was passed on.
    fn pass(&mut self, alloc: Global, action: &Action) -> Result<(), NoMemory>
        ensures passed { OnOk result (told self.new ≡ passing (action.now ∷ []) (told self.old)) }
        ensures refused { OnErr result (told self.new ≡ told self.old) }
        ensures same { taken self.new ≡ taken self.old };

    /// The key of a pending fetch, or `None` if no fetch of this number is pending. Errors: a reference count at its maximum.
    fn key_of(&mut self, alloc: Global, fetch: u32) -> Result<Option<CacheKey>, NoMemory>
        ensures same { told self.new ≡ told self.old }
        ensures counted { taken self.new ≡ taken self.old }
        ensures key { IfOk result (λ key. IfSome (told self.old).node (λ n. key ≡ option_map (λ f. f.key) (fetch_of fetch n.state.plain.fetches.list))) };
}

/// Delays the result of a fetch before it is submitted.
pub trait Gate {
    /// Blocks for as long as the result of this fetch is to wait. Returns false if the gate gave up.
    fn hold(&self, fetch: u32) -> bool;
}

/// A copy of an action: octets are copied, an object is shared.
pub(crate) fn copy_action(alloc: Global, action: &Action) -> Result<Action, NoMemory>
    ensures { IfOk result (λ copied. copied ≡ action.now) }
{
    match action {
        Action::Send {
            socket,
            to,
            payload,
        } => Ok(Action::Send {
            socket: *socket,
            to: *to,
            payload: Payload::new(payload.as_slice().to_vec(alloc)?),
        }),
        Action::Fetch {
            fetch,
            attempt,
            source,
            only_if_cached,
            owner,
        } => Ok(Action::Fetch {
            fetch: *fetch,
            attempt: *attempt,
            source: *source,
            only_if_cached: *only_if_cached,
            owner: *owner,
        }),
        Action::Serve { client, answer } => Ok(Action::Serve {
            client: *client,
            answer: copy_answer(answer)?,
        }),
    }
}

/// A copy of an answer: an object is shared.
fn copy_answer(answer: &Answer) -> Result<Answer, NoMemory>
    ensures { IfOk result (λ copied. copied ≡ answer.now) }
{
    match answer {
        Answer::Hit { object, age } => Ok(Answer::Hit {
            object: object.share()?,
            age: *age,
        }),
        Answer::Got(object) => Ok(Answer::Got(object.share()?)),
        Answer::Fail(status) => Ok(Answer::Fail(*status)),
    }
}
