//! How a command ended, and what it leaves.

ghost use Rattle.std.specs.Prelude.{◌≡◌};
ghost use Rattle.run_ending.specs.Report.{empty_report};
ghost use Rattle.run_ending.specs.Ending.{report_of};

use disk_model::Disk;
use graph_model::{Base, Graph, Moments, Records};
use graph_store::Closed;
use log_commands::Status;
use request_text::Replies;
use std::alloc::Global;

/// What a run leaves. It is empty where no request has run.
#[derive(Drop)]
pub struct Report {
    /// The epoch of the graph that the run started from.
    pub base_epoch: u64,
    /// The graph that the run started from.
    pub base: Graph,
    /// The replies to the lines of a script that set the run up. `run` has none.
    pub setup: Replies,
    /// The replies to the lines of the script.
    pub replies: Replies,
    /// What committed.
    pub records: Records,
    /// For each epoch of the run the disk's moment from which it is durable.
    pub durable_at: Moments,
    /// The length of the log up to its last gate, in bytes.
    pub durable_length: u64,
    /// The last of the moments at which something was durable, or 0.
    pub last_moment: u64,
}

impl Report {
    /// The report of a command that ran no request. It takes no memory.
    pub fn empty(alloc: Global) -> Report
        ensures { result ≡ empty_report }
    {
        Report {
            base_epoch: 0,
            base: Graph::empty(alloc),
            setup: Replies::new(alloc),
            replies: Replies::new(alloc),
            records: Records::new(alloc),
            durable_at: Moments::new(alloc),
            durable_length: 0,
            last_moment: 0,
        }
    }
}

/// How a command ended, and what it leaves, with the disk.
#[derive(Drop)]
pub struct Ended<D: Disk> {
    pub status: Status,
    pub report: Report,
    pub disk: D,
}

impl<D: Disk> Ended<D> {
    ghost use Rattle.std.specs.Prelude.{◌≡◌};
    ghost use Rattle.run_ending.specs.Report.{empty_report};
    ghost use Rattle.run_ending.specs.Ending.{report_of};

    /// The end of a command that ran no request. It takes no memory.
    pub fn without_run(alloc: Global, status: Status, disk: D) -> Ended<D>
        ensures { result ≡ record { status = status; report = empty_report; disk = disk } }
    {
        Ended {
            status,
            report: Report::empty(alloc),
            disk,
        }
    }

    /// The end of a command whose requests have run, from this base, with what the store left. It takes no memory.
    pub fn after_run(
        status: Status,
        base: Base,
        setup: Replies,
        replies: Replies,
        closed: Closed<D>,
    ) -> Ended<D>
        ensures { result ≡ record { status = status; report = report_of base setup replies closed; disk = closed.disk } }
    {
        Ended {
            status,
            report: Report {
                base_epoch: base.epoch,
                base: base.graph,
                setup,
                replies,
                records: closed.records,
                durable_at: closed.durable_at,
                durable_length: closed.durable_length,
                last_moment: closed.last_moment,
            },
            disk: closed.disk,
        }
    }
}
