//! The value of a shard's turn.

ghost use Rattle.std.specs.Prelude.{◌≡◌, ◌≤◌, ◌<◌, ℕ, IfOk, IsTrue};
ghost use Rattle.graph_model.specs.Graph.{vertex_at};
ghost use Rattle.graph_model.specs.Records.{IsGood, list_most};
ghost use Rattle.core_states.specs.Openings.{lists_within, opened_row};
ghost use Rattle.core_states.specs.Parts.{row_of};

use block_pool::Pool;
use graph_model::{Base, NoMemory};
use shard_state::Shard;
use std::alloc::Global;
use std::marker::Model;
use std::snapshot::Snapshot;
use tel_block::TelBlock;
use turn_board::ShowsRows;

/// The value of a shard's turn: a shard whose logs are blocks of its pool, and which has loaded the base. Contracts see
/// its rows, and which shard it is.
#[derive(Drop)]
pub struct ShardHome {
    pub(crate) shard: Shard<TelBlock, Pool>,
    pub(crate) base: Snapshot<Base>,
}

impl Model for ShardHome {
    ghost use Rattle.store_rows.specs.ShardValues.{ShardValue};
    ghost use Rattle.store_rows.specs.ShardsKept.{shard_value, IsKept};

    ghost Value = { ShardValue };

    ghost view = { shard_value };

    ghost invariant = { IsKept };
}

impl ShowsRows for ShardHome {
    ghost rows = { λ h. h.rows };

    ghost place = { λ h. h.place };
}

impl ShardHome {
    /// The shard of this number among so many as a run of the base starts with it. No list of the base is above
    /// `log_most`. After NoMemory what was loaded is lost.
    ///
    /// Time: logarithmic for each vertex of the base, and one step for each edge and each byte of the shard's.
    pub fn opened(
        alloc: Global,
        number: u32,
        shards: u32,
        log_most: u64,
        base: &Base,
    ) -> Result<ShardHome, NoMemory>
        requires among { number < shards }
        requires most { log_most ≤ list_most }
        requires good { IsGood base.now }
        requires lists { IsTrue (lists_within log_most base.now.graph) }
        ensures rows { IfOk result (λ home. (v : ℕ)
            → row_of base.now home.rows v ≡ opened_row base.now.epoch (vertex_at v base.now.graph)) }
        ensures place { IfOk result (λ home. home.place
            ≡ record { number = number; shards = shards; log_most = log_most; base = base.now }) }
    {
        let shard = Shard::load(alloc, number, shards, log_most, Pool::new(alloc), base)?;
        Ok(ShardHome {
            shard,
            base: Snapshot::of(base),
        })
    }
}
