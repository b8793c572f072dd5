//! A script as a worker goes over it.

use script_parts::ScriptParts;

/// The script that a worker goes over.
#[derive(Drop)]
pub enum Whole<'a> {
    /// One that other workers go over too.
    Shared(&'a ScriptParts),
    /// One that no other worker needs: each part of it is given back once its lines have run.
    Own(ScriptParts),
}
