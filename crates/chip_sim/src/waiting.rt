//! The frames that wait for the host, first come first served.

ghost use Rattle.std.specs.Prelude.{◌≡◌, ◌++◌, ◌∷◌, [], false, drop, slice_get, IfOk};
ghost use Rattle.chip_sim.specs.Waiting.{is_full};

use crate::post::Post;
use std::alloc::Global;
use std::marker::Model;
use zw_base::NoMemory;

/// The most frames that wait for the host.
pub const MAX_WAITING: usize = 32;

/// The frames that wait for the host, at most 32, with the room for all of them. Contracts see the list.
#[derive(Debug, Drop)]
pub struct Waiting {
    posts: Vec<Post>,
}

impl Model for Waiting {
    ghost use Rattle.std.specs.Prelude.{List, ◌≤◌, vec_len, vec_capacity};
    ghost use Rattle.serial_frame.specs.Frame.{FrameParts};

    ghost Value = { List FrameParts };

    ghost view = { λ w. w.posts.items };

    ghost invariant = { λ w. (vec_len w.posts ≤ 32) × (32 ≤ vec_capacity w.posts) };
}

impl Waiting {
    /// No frames, with the room for all that may wait.
    pub fn new(alloc: Global) -> Result<Waiting, NoMemory>
        ensures { IfOk result (λ waiting. waiting ≡ []) }
    {
        Ok(Waiting {
            posts: Vec::with_capacity(alloc, MAX_WAITING)?,
        })
    }

    /// True exactly where as many frames wait as may.
    pub fn is_full(&self) -> bool
        ensures { result ≡ is_full self.now }
    {
        self.posts.len() == MAX_WAITING
    }

    /// Adds a frame at the end. The list is not full.
    pub fn put(&mut self, post: Post)
        requires { is_full self.old ≡ false }
        ensures { self.new ≡ self.old ++ post ∷ [] }
    {
        self.posts.push_reserved(post);
    }

    /// Takes out the frame that has waited longest.
    pub fn take_first(&mut self) -> Option<Post>
        ensures first { result ≡ slice_get self.old 0 }
        ensures rest { self.new ≡ drop 1 self.old }
    {
        if self.posts.is_empty() {
            None
        } else {
            Some(self.posts.remove(0))
        }
    }
}
