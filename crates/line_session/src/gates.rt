//! Where requests are held before they are asked.
//!
//! A gate says nothing of what is asked or answered, so no contract rests on it. Tests hold one caller at it until
//! another has come by, and a program that works for long tells by it how far it is.
use std::sync::Wait;

/// What each request waits at, once, before anything is asked or written for it.
pub trait Gate: Drop {
    /// Lets a request through, as soon as it may be asked. It may wait for other threads.
    ///
    /// Links have numbers, and so have the requests of a link, from 0.
    fn before<R: Wait + Copy>(&self, rt: &R, link: u64, reply: u64);
}

/// A gate that holds no request.
#[derive(Clone, Copy, Debug, Drop)]
pub struct NoGate;

impl Gate for NoGate {
    fn before<R: Wait + Copy>(&self, _rt: &R, _link: u64, _reply: u64) {}
}

// The requests of one link, as they come to its gate.
#[derive(Drop)]
pub(crate) struct Arrivals<'a, G> {
    gate: &'a G,
    link: u64,
    reply: u64,
}

impl<'a, G: Gate> Arrivals<'a, G> {
    // The link's first request is to come.
    pub(crate) fn new(gate: &'a G, link: u64) -> Arrivals<'a, G> {
        Arrivals {
            gate,
            link,
            reply: 0,
        }
    }

    // The next request goes through the gate. A request takes a byte at least, so the count of a session does not
    // come to its end.
    pub(crate) fn pass_next<R: Wait + Copy>(&mut self, rt: &R) {
        self.gate.before(rt, self.link, self.reply);
        self.reply = self.reply.saturating_add(1);
    }
}
