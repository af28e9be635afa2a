//! A router on which calls are made, one after the other.
use crate::calls::{Answer, once};
use crate::cases::{Call, Case};
use crate::routers::router_of;
use gs_base::{Millis, PeerNo};
use gs_params::SeededWords;
use gs_router::Router;
use std::alloc::{AllocError, Global};

/// A router of a case, and the words by which it chooses.
#[derive(Drop)]
pub struct Player {
    alloc: Global,
    router: Router,
    words: SeededWords,
}

impl Player {
    /// Returns a player that has done nothing.
    pub fn new(alloc: Global, case: &Case<'_>) -> Result<Player, AllocError> {
        let words = SeededWords::new(Vec::new(alloc), 1, PeerNo(0));
        Ok(Player {
            alloc,
            router: router_of(alloc, case)?,
            words,
        })
    }

    pub fn router(&self) -> &Router {
        &self.router
    }

    /// Makes a call of the router, and returns what it answers.
    ///
    /// # Errors
    /// `AllocError` if memory runs out, or if the call may not come now.
    pub fn answer(&mut self, now: Millis, call: Call<'_>) -> Result<Answer, AllocError> {
        once(self.alloc, &mut self.router, now, call, &mut self.words)
    }
}
