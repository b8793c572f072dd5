//! What the workers of a script share.

use disk_model::Disk;
use std::alloc::Global;
use store_board::StoreBoard;
use store_log::LogHome;
use store_rows::ShardHome;

/// What workers that share a script run its lines on.
#[derive(Drop)]
pub struct SharedRun<'a, D: Disk, G> {
    /// Where the lines take memory from.
    pub alloc: Global,
    /// The board of the store that the lines work on.
    pub board: &'a StoreBoard<ShardHome, LogHome<D>>,
    /// Which worker each line is for; empty where one worker has them all.
    pub owners: &'a [u32],
    /// How many workers share the script.
    pub workers: u32,
    /// What a worker passes before each of its lines.
    pub gate: &'a G,
}
