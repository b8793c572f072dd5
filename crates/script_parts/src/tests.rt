//! Scripts in parts with ample memory.

use crate::{Part, ScriptParts};
use request_text::{Line, Request, Script};
use std::alloc::Global;
use std::test::Fail;

/// One line of this session.
fn line(alloc: Global, session: u32) -> Result<Script, Fail> {
    let mut lines = Script::new(alloc);
    lines.push(Line {
        session,
        request: Request::Begin,
    })?;
    Ok(lines)
}

/// A script of two parts.
fn two_parts(alloc: Global) -> Result<ScriptParts, Fail> {
    let mut script = ScriptParts::of(alloc, line(alloc, 1)?)?;
    script.push(Part::of(alloc, line(alloc, 2)?)?)?;
    Ok(script)
}

#[test]
fn parts_are_put_one_behind_another(rt: HostRuntime) -> Result<(), Fail> {
    let alloc = rt.alloc();
    let mut script = two_parts(alloc)?;
    let mut rest = ScriptParts::new(alloc);
    rest.push(Part::of(alloc, line(alloc, 3)?)?)?;
    script.append(rest)?;
    assert_eq!(rt; script.len(), 3);
    for (place, wanted) in [1, 2, 3].into_iter().enumerate() {
        let part = script.parts().get(place);
        assert_eq!(rt; part.map(|part| part.len()), Some(1));
        let line = part.and_then(|part| part.lines().first());
        assert_eq!(rt; line.map(|line| line.session), Some(wanted));
        let session = part.and_then(|part| part.sessions().first());
        assert_eq!(rt; session.copied(), Some(wanted));
    }
    Ok(())
}

#[test]
fn a_script_is_taken_apart_or_given_back(rt: HostRuntime) -> Result<(), Fail> {
    let alloc = rt.alloc();
    assert_eq!(rt; two_parts(alloc)?.into_parts().len(), 2);
    two_parts(alloc)?.give_back(&rt, alloc);
    Ok(())
}
