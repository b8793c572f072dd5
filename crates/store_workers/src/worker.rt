//! One worker.

ghost use Rattle.request_text.specs.Limits.{AreWithinLimits};
ghost use Rattle.worker_lines.specs.Lines.{AreOwners};
ghost use Rattle.worker_lines.specs.Wholes.{all_lines};
ghost use Rattle.store_workers.specs.Crews.{MayStart, HasRun};

use disk_model::Disk;
use graph_store::StorePass;
use io_edges::Gate;
use request_text::Reply;
use std::mem;
use std::sync::Wait;
use store_turns::Session;
use worker_lines::{SharedRun, Whole, run_lines};
use worker_sessions::{close_all, open_all};

/// The sessions of a worker, and the replies to its lines.
#[derive(Drop)]
pub struct Crew {
    pub sessions: Vec<Session>,
    pub replies: Vec<Reply>,
}

/// A worker: its pass, its sessions, and the replies to its lines.
// The type of the pass is a parameter, so that it is seen to go to another thread wherever the pass may.
pub struct Worker<P> {
    pub pass: P,
    pub crew: Crew,
}

impl<D: Disk> Worker<StorePass<D>> {
    /// Opens the worker's sessions, runs the lines of the script that are its own, each behind the gate, and closes the
    /// sessions; what one has open is given up. The worker is the one of this number among those that share the script.
    /// It cannot fail. Nothing here says that the waits end.
    pub fn run<G: Gate, R: Wait>(
        &mut self,
        rt: &R,
        shared: &SharedRun<D, G>,
        whole: Whole,
        number: u32,
    )
        requires may { MayStart shared.now.board.now.turns shared.now.board.now.shards shared.now.workers
            (all_lines whole) number self.old }
        requires within { AreWithinLimits (all_lines whole) }
        requires owned { AreOwners shared.now.workers shared.now.owners.now 0 (all_lines whole) }
        ensures ran { HasRun shared.now.board.now.turns shared.now.board.now.shards shared.now.workers
            (all_lines whole.entry) number self.old self.new }
    {
        // Workers lie side by side. The list of replies, whose length each line changes, is in this thread's own frame
        // meanwhile, so that no line fetches from another processor what a line there has just changed.
        let mut replies = mem::replace(&mut self.crew.replies, Vec::new(shared.alloc));
        let sessions = self.crew.sessions.as_mut_slice();
        open_all(rt, shared.board, &mut self.pass, sessions);
        run_lines(
            rt,
            shared,
            whole,
            number,
            &mut self.pass,
            sessions,
            &mut replies,
        );
        close_all(rt, shared.board, &mut self.pass, sessions);
        self.crew.replies = replies;
    }
}
