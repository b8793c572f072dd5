//! What a close of a board tells, and the law on replies. A worker knows of its sessions what its pass has noted: its
//! events, each with the actor that it left. A close tells of one run of all events, in which the events of each pass
//! stand in the order of its notes. So the notes of all workers, each of which are those of its lines one after
//! another, make the run of all workers that the law asks for. No code.
#![tactic(auto)]

ghost use Rattle.std.specs.Prelude.{◌≡◌, ◌≢◌, ℕ, List, [], length};
ghost use Rattle.graph_model.specs.declared.graph.Base.{Base};
ghost use Rattle.graph_model.specs.declared.record.Record.{Record};
ghost use Rattle.request_text.specs.declared.reply.Reply.{Reply};
ghost use Rattle.graph_legal.specs.Lines.{Phase, Replied, asked_from, history};
ghost use Rattle.graph_legal.specs.Legal.{Legal};
ghost use Rattle.core_states.specs.Faults.{FailedAs};
ghost use Rattle.core_states.specs.Parts.{Parts, state_of_parts};
ghost use Rattle.graph_workers.specs.Faults.{FaultsTold, IsToldFailed};
ghost use Rattle.graph_workers.specs.Workers.{AllRan};
ghost use Rattle.turn_board.specs.Views.{Done, Noted, View};
ghost use Rattle.turn_board.specs.Histories.{noted};
ghost use Rattle.worker_runs.specs.Notes.{WorkerDid};
ghost use Rattle.worker_runs.specs.Runs.{AllDid, IsToldOf};

/// Where each worker's pass has noted that its sessions were opened, that its lines were run one after another, and that
/// its sessions were closed, and the passes of a phase were split off when those of the phases before had noted all, the
/// run that a close tells of is a run of all workers.
pub fn notes_of_all_workers_are_a_run()
    ensures { (v : View) (parts : Parts) (run : List Done) (lines : List Replied) → AllDid v lines →
        IsToldOf v parts run → AllRan v.base v.found (state_of_parts v.base parts) lines }
{}

/// So the replies to the lines of scripts are legal for the records of the clock that the close tells of.
pub fn replies_that_are_noted_so_are_legal()
    ensures { (v : View) (parts : Parts) (run : List Done) (phases : List Phase) (replies : List Reply) →
        AllDid v (history phases replies) → IsToldOf v parts run → length (asked_from 0 phases) ≡ length replies
        → Legal phases v.base parts.clock.records replies }
{}

/// And the two counts of a `log-fault` reply that is noted so are those of the disk's faults round the append of its
/// record's group, as the log part of the last state has them.
pub fn log_faults_that_are_noted_so_tell_of_groups()
    ensures { (v : View) (parts : Parts) (run : List Done) (lines : List Replied) → AllDid v lines → IsToldOf v parts run →
        FaultsTold v.found (state_of_parts v.base parts) lines }
{}

/// The record of each transaction that has failed in the state that the close tells of is told of: a line of the
/// scripts was answered `log-fault` with the counts that the core keeps of it, and the lines of its session above made
/// a transaction with the record's number, read epoch and changes.
pub fn failed_records_are_told_where_replies_are_noted_so()
    ensures { (v : View) (parts : Parts) (run : List Done) (phases : List Phase) (replies : List Reply) →
        AllDid v (history phases replies) → IsToldOf v parts run → (before after : ℕ) (r : Record) →
        FailedAs (state_of_parts v.base parts) before after r → IsToldFailed before after r (history phases replies) }
{}

/// What a worker notes is of its own pass: so in the notes of a pass that has joined all workers', each worker's are
/// as they were.
pub fn notes_of_a_worker_are_of_its_pass()
    ensures own { (base : Base) (pass : List ℕ) (lines : List Replied) (notes : List Noted) →
        WorkerDid base pass lines notes → noted pass notes ≡ notes }
    ensures others { (base : Base) (pass : List ℕ) (other : List ℕ) (lines : List Replied) (notes : List Noted) →
        pass ≢ other → WorkerDid base pass lines notes → noted other notes ≡ [] }
{}

/// There are such notes: a worker opens its session, begins, commits and closes.
pub fn a_worker_can_note_so()
    ensures { (v : View) × (parts : Parts) × (run : List Done) × (lines : List Replied) × AllDid v lines ×
        IsToldOf v parts run × (length lines ≡ 2) }
{}
