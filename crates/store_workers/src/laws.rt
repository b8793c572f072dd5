//! What the one pass of a store knows between phases: it begins with none, and the law on replies has what it asks for.

ghost use Rattle.std.specs.Prelude.{◌≡◌, [], List, length};
ghost use Rattle.request_text.specs.declared.reply.Reply.{Reply};
ghost use Rattle.graph_legal.specs.Lines.{Phase, asked_from, history};
ghost use Rattle.turn_board.specs.Views.{Start, View, IsLast, fresh_view};
ghost use Rattle.worker_runs.specs.Runs.{AllDid};
ghost use Rattle.store_workers.specs.Phases.{HasRunPhases};

/// The first pass of a store, which has done nothing, has run no phase.
pub fn a_new_pass_has_run_no_phase()
    ensures { (start : Start) (v : View) → v ≡ fresh_view start [] [] [] → HasRunPhases [] [] v }
{}

/// A pass that has run phases is the last one, and has noted of all workers what the law on replies asks for.
pub fn phases_that_were_run_are_noted()
    ensures did { (phases : List Phase) (replies : List Reply) (v : View) → HasRunPhases phases replies v →
        AllDid v (history phases replies) }
    ensures len { (phases : List Phase) (replies : List Reply) (v : View) → HasRunPhases phases replies v →
        length (asked_from 0 phases) ≡ length replies }
    ensures last { (phases : List Phase) (replies : List Reply) (v : View) → HasRunPhases phases replies v → IsLast v }
{}
