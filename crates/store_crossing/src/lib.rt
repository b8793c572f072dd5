//! What threads of a store owe for what they hand to each other: a pass may go to another thread, and threads may share the
//! board, where they may share the disk.
//!
//! A search through all that a board holds gives up. Here it goes from part to part: a row, a shard of rows, the value of
//! its turn (`proofs/Shards.antt`), then the values of all turns, a pass and the board (`proofs/Crossing.antt`). The crates
//! that make threads cite the last.
#![tactic(auto)]
