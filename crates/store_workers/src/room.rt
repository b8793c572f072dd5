//! The memory that a run of a script takes beside the store.

ghost use Rattle.std.specs.Prelude.{◌≡◌, [], IfOk};
ghost use Rattle.store_workers.specs.Rooms.{IsRoomFor};

use crate::filling::{Shares, shares_for};
use crate::worker::{Crew, Worker};
use graph_model::NoMemory;
use request_text::Reply;
use script_parts::ScriptParts;
use std::alloc::Global;

/// All the memory that workers take for a run of a script beside what its lines take: their sessions, and room for the
/// workers, for the replies of each and for all replies. It is taken before a store is opened, so that want of memory
/// leaves the log as it was.
pub struct ScriptRoom<P> {
    /// The crews of the workers, the last one first.
    pub crews: Vec<Crew>,
    /// Which worker each line is for; empty where one worker has them all.
    pub owners: Vec<u32>,
    /// Room for the workers; none is there yet.
    pub workers: Vec<Worker<P>>,
    /// Room for the replies of each worker; none is there yet.
    pub own: Vec<Vec<Reply>>,
    /// Room for the replies to all lines; none is there yet.
    pub replies: Vec<Reply>,
}

impl<P> ScriptRoom<P> {
    /// Room for a run of this script by so many workers.
    ///
    /// `NoMemory`: there is not so much memory, and what was taken of it is given back.
    ///
    /// Time: one step for each line, for each worker, and for each session up to the greatest of the script. Memory: that
    /// of a session for each number up to the greatest, of two replies for each line, and of each worker; with more workers
    /// than one, 4 bytes for each line, which note whose it is.
    pub fn new(alloc: Global, script: &ScriptParts, count: u32) -> Result<ScriptRoom<P>, NoMemory>
        ensures room { IfOk result (λ room. IsRoomFor count script.now room) }
    {
        let Shares { crews, owners } = shares_for(alloc, script, count)?;
        let own = Vec::with_capacity(alloc, count as usize)?;
        let replies = Vec::with_capacity(alloc, script.len())?;
        let workers = Vec::with_capacity(alloc, count as usize)?;
        Ok(ScriptRoom {
            crews,
            owners,
            workers,
            own,
            replies,
        })
    }

    /// Gives the memory back, where nothing was run.
    ///
    /// Ends: the room.
    pub fn give_back(self)
        requires unused { self.workers.items ≡ [] }
    {
        let ScriptRoom {
            crews,
            owners,
            workers,
            own,
            replies,
        } = self;
        workers.destroy_empty();
        drop((crews, owners, own, replies));
    }
}
