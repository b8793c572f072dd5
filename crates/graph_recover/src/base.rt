//! The base that the records of a log make.

ghost use Rattle.std.specs.Prelude.{◌≡◌, [], map, ℕ};
ghost use Rattle.graph_model.specs.Graph.{after};
ghost use Rattle.graph_model.specs.Records.{all_changes, made_vertices, last_epoch, Lawful};
ghost use Rattle.graph_recover.specs.Bases.{greatest_of, base_of};

use graph_model::{Base, Change, Graph, Record, Records};

/// The base of a log's records, with the graph after them. Time: one step for each record and change.
pub fn base_of(graph: Graph, records: &Records) -> Base
    requires after { graph ≡ after (all_changes records.now) [] }
    requires lawful { Lawful records.now }
    ensures { result ≡ base_of records.now }
{
    let records = records.as_slice();
    let next_tid = greatest_number(records) + 1;
    let next_vertex = greatest_vertex(records) + 1;
    Base {
        graph,
        epoch: last_epoch(records),
        next_tid,
        next_vertex,
    }
}

/// The epoch of the last record, or 0.
fn last_epoch(records: &[Record]) -> u64
    ensures { result ≡ last_epoch 0 records.now }
{
    match records.last() {
        Some(record) => record.epoch,
        None => 0,
    }
}

/// The greatest number of a transaction, or 0.
fn greatest_number(records: &[Record]) -> u64
    ensures { result ≡ greatest_of (map (λ r. r.tid) records.now) }
{
    let mut most = 0;
    for record in records {
        most = record.tid.max(most);
    }
    most
}

/// The greatest number of a vertex that was made, or 0.
fn greatest_vertex(records: &[Record]) -> u64
    ensures { result ≡ greatest_of (made_vertices (all_changes records.now)) }
{
    let mut most = 0;
    for record in records {
        most = greatest_made(record.changes.as_slice()).max(most);
    }
    most
}

/// The greatest number of a vertex that these changes make, or 0.
fn greatest_made(changes: &[Change]) -> u64
    ensures { result ≡ greatest_of (made_vertices changes.now) }
{
    let mut most = 0;
    for change in changes {
        if let Change::New { v, .. } = change {
            most = (*v).max(most);
        }
    }
    most
}
