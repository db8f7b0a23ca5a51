//! The replies that a host gives, one after the other.

ghost use Rattle.std.specs.Prelude.{◌≡◌, slice_get};
ghost use Rattle.std.specs.Option.{option_copied};

use sqlite_items::Items;
use std::marker::Model;
use wasm_types::Reply;

/// Replies, and how many of them were used.
#[derive(Drop)]
pub struct Script {
    replies: Items<Reply>,
    used: usize,
}

impl Model for Script {
    ghost use Rattle.run_store.specs.Scripts.{Replies, AreUsed};

    ghost Value = { Replies };

    ghost view = { λ s. record { replies = s.replies; used = s.used } };

    ghost invariant = { λ s. AreUsed (record { replies = s.replies; used = s.used }) };
}

impl Script {
    ghost use Rattle.run_store.specs.Scripts.{AreUsed, advanced};

    /// These replies, none of which was used.
    pub fn new(replies: Items<Reply>) -> Script
        ensures { result ≡ record { replies = replies; used = 0 } }
    {
        Script { replies, used: 0 }
    }

    /// The next reply: none exactly where all were used.
    pub fn next(&self) -> Option<&Reply>
        ensures reply { option_copied result ≡ slice_get self.now.replies self.now.used }
        ensures used { AreUsed self.now }
    {
        self.replies.get(self.used)
    }

    /// Takes the next reply for used, where there is one.
    pub fn advance(&mut self)
        ensures { self.new ≡ advanced self.old }
    {
        if self.used < self.replies.len() {
            self.used += 1;
        }
    }
}
