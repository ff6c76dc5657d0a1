//! How requests are answered: by the published rules or by RFC 9111.
use crate::front::NodeFront;
use filter_slots::Moment;
use http_rules::{Stored, choose, classify, is_for_a_part};
use http_traffic::Asked;
use node_words::Mode;
use object_store::{CacheKey, Entry};
use proxy_state::{Profile, Shared, TakeEvents, has_marks};
use std::sync::Wait;
use std::time::Clock;

/// The age and the life that the object of an entry has left now.
fn stored_in(entry: &Entry, now: Moment) -> Stored {
    let object = entry.object.get();
    let stay = now.millis().saturating_sub(entry.at.millis()) / 1000;
    let stay = u32::try_from(stay).unwrap_or(u32::MAX);
    Stored {
        age: object.age().saturating_add(stay),
        life: object.life().saturating_sub(stay),
    }
}

impl<R: Wait + Clock + Drop, S: Shared, N: TakeEvents> NodeFront<R, S, N> {
    /// How a request is answered by the published rules, if these are in force. Errors: the HTTP status to answer.
    pub(crate) fn published_mode(&self, asked: &Asked) -> Result<Option<Mode>, u16> {
        match self.proxy.kept().profile {
            Profile::Published => Ok(Some(classify(asked.method.as_str(), &asked.head)?)),
            Profile::Rfc9111(_) => Ok(None),
        }
    }

    /// How a request for this key is answered. Errors: the HTTP status to answer.
    pub(crate) fn mode(&self, asked: &Asked, key: &CacheKey) -> Result<Mode, u16> {
        match self.published_mode(asked)? {
            Some(mode) => Ok(mode),
            None => self.fresh_mode(asked, key),
        }
    }

    /// How a request for this key is answered by RFC 9111. Errors: the HTTP status to answer.
    fn fresh_mode(&self, asked: &Asked, key: &CacheKey) -> Result<Mode, u16> {
        let stored = self.stored_for(asked, key);
        choose(asked.method.as_str(), &asked.head, stored)
    }

    /// How a request for this key that has come now is answered by RFC 9111, as `fresh_mode` says. The third one within a minute for a part
    /// of what is not stored and may be has the whole fetched for all beside it, unless it is refused. Errors: the HTTP status to answer.
    pub(crate) fn counted_mode(&mut self, asked: &Asked, key: &CacheKey) -> Result<Mode, u16> {
        let stored = self.stored_for(asked, key);
        let mode = choose(asked.method.as_str(), &asked.head, stored)?;
        if mode == Mode::Private && stored.is_none() {
            self.count_part(asked, key);
        }
        Ok(mode)
    }

    /// Counts a request for this key if it is for a part and may be taken, and has the whole fetched for all if it is the third.
    fn count_part(&mut self, asked: &Asked, key: &CacheKey) {
        if !self.is_for_the_whole(asked, key) {
            return;
        }
        if let Ok(key) = key.share() {
            self.fetch_for_all(key);
        }
    }

    /// Whether a GET for which nothing is stored and which asks for a part has the whole fetched: it is counted. One that `check` refuses
    /// is not: nothing is fetched for it.
    fn is_for_the_whole(&self, asked: &Asked, key: &CacheKey) -> bool {
        let kept = self.proxy.kept();
        if kept.parts.is_none() || !is_for_a_part(&asked.head) {
            return false;
        }
        if self.check(asked, key, has_marks(asked)).is_err() {
            return false;
        }
        let now = self.proxy.now(&self.rt);
        kept.note_part(&self.rt, key, now)
    }

    /// What is stored under a key, where that makes a difference to the request. An object that cannot get one more owner counts as
    /// not stored.
    fn stored_for(&self, asked: &Asked, key: &CacheKey) -> Option<Stored> {
        let head = &asked.head;
        let is_plain = asked.method.as_str() == "GET"
            && !head.contains_key("cache-control")
            && !head.contains_key("range");
        if is_plain {
            return None;
        }
        let now = self.proxy.now(&self.rt);
        match self.proxy.stored(&self.rt, key.as_slice(), now) {
            Ok(Some(entry)) => {
                let stored = stored_in(&entry, now);
                drop(entry);
                Some(stored)
            }
            Ok(None) | Err(_) => None,
        }
    }
}
