//! Answers with what is stale.
use crate::front::NodeFront;
use futures::channel::oneshot;
use http_rules::{StaleUse, Stored, choose, stale_use};
use http_traffic::{Asked, Asking, Forward, Outcome, Supplier};
use node_words::{Event, Mode};
use object_store::CacheKey;
use proxy_state::{Given, Shared, Stale, TakeEvents, has_marks};
use std::alloc::Global;
use std::mem;
use std::sync::Wait;
use std::time::{Clock, Instant};

/// The answer with an object that is stale.
fn outcome_of(stale: Stale) -> Outcome {
    let Stale { object, age } = stale;
    Outcome::Got {
        object,
        supplier: Some(Supplier::Stale(age)),
        is_stored: false,
    }
}

/// What receives an answer with an object that is stale. `None` if out of memory.
fn given_stale(alloc: Global, stale: Stale) -> Option<oneshot::Receiver<Outcome>> {
    match oneshot::channel(alloc) {
        Ok((reply, answer)) => {
            drop(reply.send(outcome_of(stale)));
            Some(answer)
        }
        Err(_) => {
            drop(stale);
            None
        }
    }
}

impl<R: Wait + Clock + Drop, S: Shared, N: TakeEvents> NodeFront<R, S, N> {
    /// What is on the shelf under a key, if it is stale and may be used for this.
    fn stale(&self, key: &CacheKey, occasion: StaleUse) -> Option<Stale> {
        let kept = self.proxy.kept();
        if kept.shelf.is_none() {
            return None;
        }
        let now = self.proxy.now(&self.rt);
        kept.stale(&self.rt, now, key.as_slice(), occasion)
    }

    /// A request for all clients that the node has given this, with what is on the shelf where that may be given now.
    pub(crate) fn with_stale(&mut self, asked: &Asked, given: Given, asking: Asking) -> Asking {
        match given {
            Given::Nothing => {
                if !self.give_stale(asked, asking.client) {
                    self.attend(asked, asking.client);
                }
                if asking.forward == Forward::Miss {
                    self.expect_early(asked, asking.client);
                }
                asking
            }
            Given::Refusal => self.instead(asked, asking),
            Given::Object => asking,
        }
    }

    /// A request that the node has refused since there is no room for a fetch, with what is on the shelf in place of that answer, if it may
    /// be given.
    fn instead(&mut self, asked: &Asked, asking: Asking) -> Asking {
        let mut asking = asking;
        if let Some(answer) = self.answer_instead(asked) {
            drop(mem::replace(&mut asking.answer, answer));
        }
        asking
    }

    /// What receives the answer with what is on the shelf for a request that the node has refused. `None` also if out of memory.
    fn answer_instead(&mut self, asked: &Asked) -> Option<oneshot::Receiver<Outcome>> {
        match self.stale_instead(asked) {
            Some(stale) => given_stale(self.alloc, stale),
            None => None,
        }
    }

    /// What is on the shelf for a request that the node has refused: what may be given while its origin is asked, as well as what may be
    /// in place of an error, since that is what the lack of room is (RFC 5861, section 4).
    fn stale_instead(&mut self, asked: &Asked) -> Option<Stale> {
        if self.proxy.kept().shelf.is_none() {
            return None;
        }
        let occasion = stale_use(&asked.head)?;
        match self.key(asked) {
            Ok(key) => {
                let found = self.stale_or_instead(&key, occasion);
                drop(key);
                found
            }
            Err(_) => None,
        }
    }

    /// What is on the shelf under a key, if it may be given now, or in place of an error.
    fn stale_or_instead(&self, key: &CacheKey, occasion: StaleUse) -> Option<Stale> {
        match self.stale(key, occasion) {
            Some(found) => Some(found),
            None => {
                let occasion = StaleUse::InPlaceOfError;
                self.stale(key, occasion)
            }
        }
    }

    /// The answer to a request that is refused with this status since it wants nothing fetched: what is on the shelf, if the client accepts
    /// that (RFC 9111, sections 5.2.1.2 and 5.2.1.7). Errors: the status, 508 or 403 as `check` says, or 503 if out of memory.
    pub(crate) fn without_fetch(
        &mut self,
        asked: &Asked,
        key: &CacheKey,
        status: u16,
    ) -> Result<Asking, u16> {
        let Some(stale) = self.accepted_stale(asked, key) else {
            return Err(status);
        };
        match self.check(asked, key, has_marks(asked)) {
            Ok(()) => self.asking_of(stale),
            Err(status) => {
                drop(stale);
                Err(status)
            }
        }
    }

    /// A new client's answer with an object that is stale. Errors: 503, if out of memory.
    fn asking_of(&mut self, stale: Stale) -> Result<Asking, u16> {
        match given_stale(self.alloc, stale) {
            Some(answer) => Ok(Asking {
                client: self.next_client(),
                forward: Forward::Miss,
                began: Instant::now(&self.rt).ok(),
                answer,
            }),
            None => Err(503),
        }
    }

    /// What is on the shelf under a key, if this request would be answered by it were it fresh, and accepts that it is not.
    fn accepted_stale(&self, asked: &Asked, key: &CacheKey) -> Option<Stale> {
        let fresh = Some(Stored {
            age: 0,
            life: u32::MAX,
        });
        if choose(asked.method.as_str(), &asked.head, fresh) != Ok(Mode::Cached) {
            return None;
        }
        let occasion = stale_use(&asked.head)?;
        match occasion {
            StaleUse::Accepted(_) => self.stale(key, occasion),
            _ => None,
        }
    }

    /// Gives a client that waits for a fetch for all clients what is on the shelf, if it may have that while its origin is asked about it
    /// (RFC 5861, section 3), or if it accepts that (RFC 9111, section 5.2.1.2). The fetch goes on without it for some time, and it takes no
    /// place of those who wait any more. Returns whether it has been given something.
    fn give_stale(&mut self, asked: &Asked, client: u64) -> bool {
        if self.proxy.kept().shelf.is_none() {
            return false;
        }
        let Some(occasion) = stale_use(&asked.head) else {
            return false;
        };
        let Ok(key) = self.key(asked) else {
            return false;
        };
        let found = self.stale(&key, occasion);
        let is_given = match found {
            Some(stale) => {
                self.give_meanwhile(&key, client, stale);
                true
            }
            None => false,
        };
        drop(key);
        is_given
    }

    /// Gives a client that waits for a fetch of this key for all clients something stale, without which that goes on for some time.
    fn give_meanwhile(&mut self, key: &CacheKey, client: u64, stale: Stale) {
        let mail = self.proxy.mail();
        mail.spare(&self.rt, self.alloc, key.as_slice());
        mail.mailbox
            .lock(&self.rt)
            .answer(client, outcome_of(stale));
        let _ = self.take(Event::Gone { client });
    }
}
