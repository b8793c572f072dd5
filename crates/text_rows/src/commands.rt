//! Which word lists are which command.

use crate::asserts::same_in;
use command_words::{Command, Words, WordsRefusal, read_command};
use std::alloc::Global;
use std::test::Fail;

/// The words, which one space separates in the text. No text is no word.
fn words(alloc: Global, text: &str) -> Result<Words, Fail> {
    let mut words = Words::new(alloc);
    if !text.is_empty() {
        for word in text.split(' ') {
            words.push(word).ok().ok_or("memory")?;
        }
    }
    Ok(words)
}

/// The command `run`, by so many workers and on so many shards.
fn run(workers: u32, shards: u32) -> Command {
    Command::Run { workers, shards }
}

/// The command `drill`, of seed 7, by so many workers.
fn drill(sessions: u32, rounds: u32, workers: u32) -> Command {
    Command::Drill {
        seed: 7,
        sessions,
        rounds,
        workers,
    }
}

#[test]
fn words_of_the_table_are_its_commands(rt: HostRuntime) -> Result<(), Fail> {
    let most = Command::Dump {
        at: Some(4_611_686_018_427_387_903),
    };
    let greatest = Command::Drill {
        seed: u64::MAX,
        sessions: 65_535,
        rounds: 1,
        workers: 64,
    };
    let rows = [
        ("init", Command::Init),
        ("init --", Command::Init),
        ("run", run(1, 16)),
        ("run --", run(1, 16)),
        ("run --workers 4", run(4, 16)),
        ("run --workers=2", run(2, 16)),
        ("run --shards 64 --", run(1, 64)),
        ("run --workers 64 --shards 1", run(64, 1)),
        ("run --shards=3 --workers 2 --", run(2, 3)),
        ("check", Command::Check),
        ("dump", Command::Dump { at: None }),
        ("dump --", Command::Dump { at: None }),
        ("dump --at 0", Command::Dump { at: Some(0) }),
        ("dump --at=12", Command::Dump { at: Some(12) }),
        ("dump --at 12 --", Command::Dump { at: Some(12) }),
        ("dump --at=4611686018427387903", most),
        ("drill 7 8 9", drill(8, 9, 1)),
        ("drill 7 50 2000", drill(50, 2000, 1)),
        ("drill 7 8 500 --", drill(8, 500, 1)),
        ("drill -- 7 8 500", drill(8, 500, 1)),
        ("drill 7 -- 8 500", drill(8, 500, 1)),
        ("drill --workers 4 7 8 500", drill(8, 500, 4)),
        ("drill 7 --workers=4 8 500", drill(8, 500, 4)),
        ("drill 7 8 --workers 4 500", drill(8, 500, 4)),
        ("drill 7 8 500 --workers=4 --", drill(8, 500, 4)),
        ("drill --workers 4 7 -- 8 500", drill(8, 500, 4)),
        ("drill 18446744073709551615 65535 1 --workers 64", greatest),
    ];
    for (text, command) in rows {
        let words = words(rt.alloc(), text)?;
        same_in(&rt, read_command(rt.alloc(), &words), Ok(command), text);
    }
    Ok(())
}

/// Words that are no command.
const NO_COMMANDS: [&str; 89] = [
    "",
    "launch",
    "--",
    "-- run",
    "--help",
    "help",
    "-h",
    "run --help",
    "dump -h",
    "check --version",
    "Run",
    "run script",
    "run -- script",
    "run -- --",
    "run --workers 0",
    "run --workers 65",
    "run --workers=0",
    "run --workers=02",
    "run --workers",
    "run --workers --",
    "run --workers=",
    "run --workers two",
    "run --workers 2 --workers 3",
    "run --workers=2 --shards 4 --workers=3",
    "run --shards 0",
    "run --shards=65",
    "run --shards 2 --shards=2",
    "run --workers --shards 2",
    "run --worker 2",
    "run -w 2",
    "run 2",
    "run --workers 2 3",
    "run -- --workers 2",
    "init --shards 4",
    "drill",
    "drill 7 8",
    "drill 7 8 --",
    "drill 7 8 500 1",
    "drill 7 8 500 -- 1",
    "drill 07 8 500",
    "drill +7 8 500",
    "drill -7 8 500",
    "drill -- -7 8 500",
    "drill 7  8 500",
    "drill 7  500",
    "drill 18446744073709551616 8 500",
    "drill 7 0 500",
    "drill 7 8 0",
    "drill 7 65536 1",
    "drill 7 1 2001",
    "drill 7 59 1695",
    "drill 7 8 500 --workers",
    "drill 7 8 500 --workers=",
    "drill 7 8 500 --workers 0",
    "drill 7 8 500 --workers 65",
    "drill --workers -- 7 8 500",
    "drill --workers 2 7 8 500 --workers=2",
    "drill 7 -- 8 500 --workers 2",
    "drill -- -- 7 8 500",
    "drill 7 -- 8 -- 500",
    "drill 7 8 500 --worker 2",
    "drill 7 8 500 -w 2",
    "drill 7 8 500 --shards 2",
    "drill 7 8 --help",
    "Drill 7 8 500",
    "check --at 1",
    "dump 1",
    "dump --at",
    "dump --at --",
    "dump --at=",
    "dump --at ",
    "dump --at 01",
    "dump --at +1",
    "dump --at -1",
    "dump --at 1x",
    "dump --at=4611686018427387904",
    "dump --at=18446744073709551616",
    "dump --at 1 --at 1",
    "dump --at=1 --at 2",
    "dump --at 1 2",
    "dump --a 1",
    "dump --a=1",
    "dump -a 1",
    "dump -e 1",
    "dump -at 1",
    "dump --epoch 1",
    "dump -",
    "dump  --at 1",
    "dump -- --at 1",
];

#[test]
fn all_other_words_are_usage(rt: HostRuntime) -> Result<(), Fail> {
    for text in NO_COMMANDS {
        let words = words(rt.alloc(), text)?;
        let refusal = Err(WordsRefusal::Usage);
        same_in(&rt, read_command(rt.alloc(), &words), refusal, text);
    }
    Ok(())
}
