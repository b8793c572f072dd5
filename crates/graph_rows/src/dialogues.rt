//! Scripts with the reply to each line.

use crate::over_memory::{assert_shown, run_by};
use graph_cli::Status;
use std::alloc::Global;
use std::test::Fail;

/// The opening of many scripts: a vertex with one edge.
const OPENING: &str = "\
1 begin -> begun 1 0
1 vertex 61 -> vertex 1
1 put 1 5 9 ff -> new
1 commit -> committed 1
";

const FIRST_SCRIPT: &str = "\
1 begin -> begun 1 0
1 vertex 61 -> vertex 1
1 put 1 5 9 ff -> new
1 put 1 5 7 - -> new
1 scan 1 5 -> edges 2 7:- 9:ff
1 commit -> committed 1
";

const REPLACED_EDGE: &str = "\
1 begin -> begun 1 0
1 vertex 61 -> vertex 1
1 put 1 5 9 ff -> new
1 put 1 5 7 - -> new
1 put 1 5 9 00 -> replaced
1 scan 1 5 -> edges 2 9:00 7:-
1 commit -> committed 1
";

const KEPT_SNAPSHOT: &str = "\
2 begin -> begun 2 1
1 begin -> begun 3 1
1 put 1 5 7 - -> new
1 commit -> committed 2
2 scan 1 5 -> edges 1 9:ff
2 commit -> ended
2 begin -> begun 4 2
2 scan 1 5 -> edges 2 7:- 9:ff
";

const HELD: &str = "\
1 begin -> begun 2 1
1 put 1 5 7 - -> new
2 begin -> begun 3 1
2 put 1 5 8 - -> held 1 2
2 commit -> no-txn
1 commit -> committed 2
";

const CONFLICT: &str = "\
2 begin -> begun 2 1
1 begin -> begun 3 1
1 put 1 5 7 - -> new
1 commit -> committed 2
2 put 1 5 8 - -> conflict 1 2
2 get 1 -> no-txn
";

const WRITE_SKEW: &str = "\
1 begin -> begun 1 0
1 vertex - -> vertex 1
1 vertex - -> vertex 2
1 commit -> committed 1
1 begin -> begun 2 1
2 begin -> begun 3 1
1 get 2 -> value -
2 get 1 -> value -
1 set 1 01 -> set
2 set 2 02 -> set
1 commit -> committed 2
2 commit -> committed 3
";

const ABORTED_CHANGES: &str = "\
1 begin -> begun 2 1
1 begin -> txn-open
1 put 1 5 9 aa -> replaced
1 put 1 6 3 - -> new
1 set 1 62 -> set
1 labels 1 -> labels 2 5 6
1 abort -> aborted
1 begin -> begun 3 1
1 scan 1 5 -> edges 1 9:ff
1 labels 1 -> labels 1 5
1 get 1 -> value 61
1 edge 1 5 9 -> edge ff
";

const ABSENT_EDGE: &str = "\
1 begin -> begun 2 1
1 del 1 5 77 -> absent
1 edge 1 5 77 -> absent
1 commit -> ended
1 begin -> begun 3 1
1 del 1 5 9 -> gone
1 scan 1 5 -> edges 0
1 commit -> committed 2
1 compact 1 5 -> compacted
";

const DROPPED_VERTEX: &str = "\
2 begin -> begun 2 1
1 begin -> begun 3 1
1 drop 1 -> dropped
1 get 1 -> none
1 scan 1 5 -> no-vertex
1 put 1 5 8 - -> no-vertex
1 commit -> committed 2
2 scan 1 5 -> edges 1 9:ff
";

const SESSIONS_APART: &str = "\
0 begin -> begun 1 0
65535 begin -> begun 2 0
0 vertex - -> vertex 1
65535 vertex - -> vertex 2
7 get 1 -> no-txn
65535 get 1 -> none
65535 get 2 -> value -
65535 commit -> committed 1
0 get 2 -> none
0 commit -> committed 2
7 begin -> begun 3 2
7 get 1 -> value -
7 get 2 -> value -
";

/// What is shown, the opening that comes first, and what follows it.
const DIALOGUES: [(&str, &str, &str); 13] = [
    ("a scan is newest first", "", FIRST_SCRIPT),
    ("an empty script has no replies", "", ""),
    ("a put again moves the edge to the front", "", REPLACED_EDGE),
    ("a snapshot stays as it was", OPENING, KEPT_SNAPSHOT),
    ("a vertex is changed by one at a time", OPENING, HELD),
    (
        "a change of what was changed since is refused",
        OPENING,
        CONFLICT,
    ),
    ("two may each read what the other writes", "", WRITE_SKEW),
    ("an abort undoes all", OPENING, ABORTED_CHANGES),
    (
        "an edge that is not there is no change",
        OPENING,
        ABSENT_EDGE,
    ),
    (
        "a vertex that is dropped stays for older snapshots",
        OPENING,
        DROPPED_VERTEX,
    ),
    (
        "sessions do not see what is not committed",
        "",
        SESSIONS_APART,
    ),
    ("a session begins idle", "", "0 scan 1 5 -> no-txn\n"),
    (
        "an empty list is that of a vertex that is there",
        OPENING,
        "1 begin -> begun 2 1\n1 scan 1 6 -> edges 0\n1 labels 2 -> no-vertex\n",
    ),
];

/// A script, and the text of its replies.
#[derive(Drop)]
struct Wanted {
    script: String,
    replies: String,
}

/// Reads lines `REQUEST -> REPLY`, for one of so many workers: the number of each session is so many times greater, or the
/// greatest one of that worker.
fn dialogue(
    alloc: Global,
    workers: u64,
    greatest: u64,
    opening: &str,
    rest: &str,
) -> Result<Wanted, Fail> {
    let mut script = String::new(alloc);
    let mut replies = String::new(alloc);
    for (i, line) in opening.lines().chain(rest.lines()).enumerate() {
        let (request, reply) = line.split_once(" -> ").ok_or("an arrow")?;
        let (session, asked) = request.split_once(' ').ok_or("a session")?;
        let session = session.parse::<u64>().ok().ok_or("a number")?;
        writeln!(
            script,
            "{} {asked}",
            session.saturating_mul(workers).min(greatest)
        )?;
        writeln!(replies, "{} {reply}", i + 1)?;
    }
    Ok(Wanted { script, replies })
}

#[test]
fn each_request_is_answered_as_written_beside_it(rt: HostRuntime) -> Result<(), Fail> {
    for (workers, many, greatest) in [("1", 1, 65535), ("4", 4, 65532)] {
        for (name, opening, rest) in DIALOGUES {
            let wanted = dialogue(rt.alloc(), many, greatest, opening, rest)?;
            let shown = run_by(&rt, rt.alloc(), workers, wanted.script.as_str())?;
            assert_shown(
                &rt,
                &shown,
                Status::Done,
                wanted.replies.as_str(),
                &[name, workers],
            );
        }
    }
    Ok(())
}
