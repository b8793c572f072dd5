//! Many workers run the lines of a script: what each line makes of the core, and why all replies are legal.
#![tactic(auto)]

ghost use Rattle.std.specs.Prelude.{◌≡◌, ◌≤◌, ◌<◌, ℕ, List, length};
ghost use Rattle.graph_model.specs.declared.graph.Base.{Base};
ghost use Rattle.graph_model.specs.declared.record.Record.{Record};
ghost use Rattle.graph_model.specs.Records.{IsGood, empty_base};
ghost use Rattle.request_text.specs.declared.reply.Reply.{Reply};
ghost use Rattle.graph_legal.specs.Lines.{Phase, Replied, asked_from, history};
ghost use Rattle.graph_legal.specs.Legal.{Legal};
ghost use Rattle.core_states.specs.Faults.{FailedAs};
ghost use Rattle.core_states.specs.LogParts.{Found};
ghost use Rattle.core_states.specs.States.{State};
ghost use Rattle.request_text.specs.declared.request.Request.TheVariants as requests;
ghost use Rattle.request_text.specs.declared.reply.Reply.TheVariants as answers;
ghost use Rattle.core_states.specs.Names.{Name};
ghost use Rattle.graph_workers.specs.Passes.{Pass, LineRan, Starts, Served};
ghost use Rattle.graph_workers.specs.Lines.{Seated, LinesLegal};
ghost use Rattle.graph_workers.specs.Workers.{AllRan};
ghost use Rattle.graph_workers.specs.Faults.{FaultsTold, IsToldFailed};

/// Where each worker of each phase ran its lines by the events of the core that its calls make, and all
/// passes were joined and closed, the replies are legal for the records.
pub fn all_workers_are_legal()
    ensures { (base : Base) (found : Found) (phases : List Phase) (replies : List Reply) (closed : State) → IsGood base →
        length (asked_from 0 phases) ≡ length replies → AllRan base found closed (history phases replies) →
        Legal phases base closed.clock.records replies }
{}

/// The same holds of lines that are not those of scripts, as long as each session has one worker.
pub fn all_lines_are_legal()
    ensures { (base : Base) (found : Found) (lines : List Replied) (seat : ℕ → ℕ → ℕ) (closed : State) → IsGood base →
        Seated seat lines → AllRan base found closed lines → LinesLegal base closed.clock.records lines }
{}

/// And the two counts of a `log-fault` reply are those of the disk's faults round the append of its record's
/// group: two replies have the same counts or spans that do not overlap, and 64 at most have the same.
pub fn log_faults_tell_of_groups()
    ensures { (base : Base) (found : Found) (lines : List Replied) (closed : State) → IsGood base → AllRan base found closed lines → FaultsTold found closed lines }
{}

/// The record of each failed transaction is told of: a line was answered `log-fault` with the counts that the core keeps
/// of it, and the lines of its session above made a transaction with the record's number, read epoch and changes. So it
/// is where the lines are those of scripts, and of any lines as long as each session has one worker.
pub fn failed_records_are_told()
    ensures scripts { (base : Base) (found : Found) (phases : List Phase) (replies : List Reply) (closed : State) → IsGood base →
        AllRan base found closed (history phases replies) → (before after : ℕ) (r : Record) → FailedAs closed before after r →
        IsToldFailed before after r (history phases replies) }
    ensures lines { (base : Base) (found : Found) (lines : List Replied) (seat : ℕ → ℕ → ℕ) (closed : State) → IsGood base →
        Seated seat lines → AllRan base found closed lines → (before after : ℕ) (r : Record) → FailedAs closed before after r →
        IsToldFailed before after r lines }
{}

/// What the replies to a worker's lines told of epochs is visible in the state that its last event saw: so a worker of a
/// later phase, whose transactions begin after that, begins on no earlier epoch.
pub fn what_a_worker_was_told_is_visible()
    ensures { (base : Base) (name : ℕ → Name) (first : Pass) (lines : List Replied) (last : Pass) → IsGood base →
        ((j k : ℕ) → name j ≡ name k → j ≡ k) → Starts base name first → Served base name first lines last →
        last.told ≤ last.seen.clock.visible }
{}

/// There are such runs, whatever was found of the log's disk: a worker begins, makes a vertex and commits.
/// There is a line whose commit fails, and a run of which the core keeps a failed transaction in the end.
pub fn a_worker_can_run()
    ensures runs { (found : Found) → (closed : State) × (lines : List Replied) × AllRan empty_base found closed lines × (length closed.clock.records ≡ 1) }
    ensures faults { (name : ℕ → Name) × (p : Pass) × (new : Pass) × LineRan empty_base name p 0 requests.Commit (answers.LogFault 3 4) new }
    ensures failed { (found : Found) × (closed : State) × (lines : List Replied) × (r : Record) × AllRan empty_base found closed lines × FailedAs closed 3 4 r }
{}
