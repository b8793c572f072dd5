//! What a read gives, and one image of a crash, found again from recorded calls.

ghost use Rattle.std.specs.Prelude.{◌≡◌, ◌+◌, ◌≤◌, length, vec_capacity, IsOk, OnOk};
ghost use Rattle.disk_model.specs.Images.{overwritten};
ghost use Rattle.disk_model.specs.Steps.{Other, filled, read_after, image_after};
ghost use Rattle.disk_model.specs.Recording.{step_of, IsIn};

use crate::NoMemory;
use crate::event::{Call, Event};
use std::alloc::Global;

/// What a read gives, and an image, so far.
#[derive(Drop)]
pub struct Replay {
    pub bytes: Vec<u8>,
    pub image: Vec<u8>,
}

impl Replay {
    /// Does a recorded call once more. `written` are the bytes that all calls wrote; what is pending is filled
    /// with a byte, if one is given, and else kept out of the image.
    pub fn redo(
        &mut self,
        alloc: Global,
        call: Call,
        written: &[u8],
        fill: Option<u8>,
    ) -> Result<(), NoMemory>
        requires { IsIn (length written.now) call }
        ensures bytes { OnOk result
            (self.new.bytes.items ≡ read_after self.old.bytes.items (step_of written.now call)) }
        ensures image { OnOk result
            (self.new.image.items ≡ image_after fill self.old.bytes.items self.old.image.items
            (step_of written.now call)) }
    {
        match call {
            Call::Write {
                place,
                from,
                amount,
            } => {
                overwrite(&mut self.bytes, place, &written[from..from + amount])?;
                fill_range(&mut self.image, alloc, place, amount, fill)
            }
            Call::Other { event } => self.redo_other(alloc, event, fill),
        }
    }

    /// What a read gives.
    pub fn into_bytes(self) -> Vec<u8>
        ensures { result ≡ self.bytes }
    {
        self.bytes
    }

    /// The image.
    pub fn into_image(self) -> Vec<u8>
        ensures { result ≡ self.image }
    {
        self.image
    }

    /// Does a call other than a write that succeeded once more.
    fn redo_other(&mut self, alloc: Global, event: Event, fill: Option<u8>) -> Result<(), NoMemory>
        ensures bytes { OnOk result
            (self.new.bytes.items ≡ read_after self.old.bytes.items (Other event)) }
        ensures image { OnOk result
            (self.new.image.items ≡ image_after fill self.old.bytes.items self.old.image.items (Other event)) }
    {
        match event {
            Event::WriteFailed { place, amount } => {
                fill_range(&mut self.image, alloc, place, amount, fill)
            }
            Event::Cut { to } => {
                self.bytes.truncate(to as usize);
                Ok(())
            }
            Event::Sync => {
                self.image = self.bytes.clone()?;
                Ok(())
            }
            Event::CutFailed { .. } | Event::SyncFailed => Ok(()),
        }
    }
}

/// Writes a piece from a place on, over what stands there and past the end.
///
/// `NoMemory`: the memory of the bytes did not hold the piece past the end, and nothing is known of the bytes.
pub(crate) fn overwrite(bytes: &mut Vec<u8>, place: u64, piece: &[u8]) -> Result<(), NoMemory>
    ensures written { OnOk result (bytes.new.items ≡ overwritten bytes.old.items place piece.now) }
    ensures fits { place + length piece.now ≤ vec_capacity bytes.old →
        length bytes.old.items ≤ vec_capacity bytes.old → IsOk result }
    ensures capacity { vec_capacity bytes.old ≤ vec_capacity bytes.new }
{
    let at = bytes.len().min(place as usize);
    if piece.len() < bytes.len() - at {
        bytes[at..at + piece.len()].copy_from_slice(piece);
        return Ok(());
    }
    bytes.truncate(at);
    bytes.extend_from_slice(piece)?;
    Ok(())
}

/// Fills a range of an image with a byte, if one is given.
fn fill_range(
    image: &mut Vec<u8>,
    alloc: Global,
    place: u64,
    amount: usize,
    fill: Option<u8>,
) -> Result<(), NoMemory>
    ensures { OnOk result (image.new.items ≡ filled fill image.old.items place amount) }
{
    match fill {
        Some(byte) => {
            let piece = vec![in alloc; byte; amount]?;
            overwrite(image, place, piece.as_slice())
        }
        None => Ok(()),
    }
}
