//! When the replies to scripts are legal for the records that were committed. Definitions, and one law.
#![tactic(auto)]

ghost use Rattle.std.specs.Prelude.{List};
ghost use Rattle.graph_model.specs.declared.record.Record.{Record};
ghost use Rattle.graph_model.specs.declared.graph.Base.{Base};
ghost use Rattle.graph_model.specs.Records.{IsGood};
ghost use Rattle.request_text.specs.declared.reply.Reply.{Reply};
ghost use Rattle.graph_legal.specs.Lines.{alone};
ghost use Rattle.graph_legal.specs.Legal.{Legal};
ghost use Rattle.request_text.specs.declared.request.Line.{Line};
ghost use Rattle.graph_legal.specs.Serial.{AreSpellable, MachineRuns, asked_alone, start};

/// Whatever script one worker runs by the plain machine, for any number of sessions, its replies are
/// legal for the records that it commits.
pub fn one_worker_is_legal()
    ensures { (base : Base) (script : List Line) (replies : List Reply) (records : List Record) →
        IsGood base → AreSpellable script → MachineRuns base (start base) (asked_alone script) replies records →
        Legal (alone script) base records replies }
{}
