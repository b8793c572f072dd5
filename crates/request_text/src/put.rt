//! Putting the words of replies to an outlet.

ghost use Rattle.std.specs.Prelude.{◌≤◌, ◌++◌, ◌∷◌, length, decimal, flat_map};
ghost use Rattle.hex.specs.Hex.{encode_lower};
ghost use Rattle.request_text.specs.Words.{payload_word};
ghost use Rattle.request_text.specs.Scripts.{word, number_word};
ghost use Rattle.request_text.specs.ReplyText.{pair_word};
ghost use Rattle.request_text.specs.Printing.{Puts, outflow};

use graph_model::{Labels, Pair, Pairs, Payload};
use io_edges::{Outlet, Sink, WriteFault};

/// The greatest number of bytes whose digits are put at once.
const PIECE: usize = 64;

/// Puts the digits of a number.
pub fn put_decimal<O: Outlet, K: Sink>(
    outlet: &mut O,
    sink: &mut K,
    n: u64,
) -> Result<(), WriteFault>
    ensures { Puts (outflow (K.written sink.old) (O.pending outlet.old) (K.faults sink.old))
        (outflow (K.written sink.new) (O.pending outlet.new) (K.faults sink.new)) result
        (decimal n) }
{
    let mut buffer = itoa::Buffer::new();
    outlet.put(sink, buffer.format(n).as_bytes())
}

/// Puts a number as a word.
pub fn put_number<O: Outlet, K: Sink>(
    outlet: &mut O,
    sink: &mut K,
    n: u64,
) -> Result<(), WriteFault>
    ensures { Puts (outflow (K.written sink.old) (O.pending outlet.old) (K.faults sink.old))
        (outflow (K.written sink.new) (O.pending outlet.new) (K.faults sink.new)) result
        (number_word n) }
{
    outlet.put(sink, b" ")?;
    put_decimal(outlet, sink, n)
}

/// Puts numbers, each as a word.
pub fn put_numbers<O: Outlet, K: Sink>(
    outlet: &mut O,
    sink: &mut K,
    numbers: &[u64],
) -> Result<(), WriteFault>
    ensures { Puts (outflow (K.written sink.old) (O.pending outlet.old) (K.faults sink.old))
        (outflow (K.written sink.new) (O.pending outlet.new) (K.faults sink.new)) result
        (flat_map number_word numbers.now) }
{
    for n in numbers {
        put_number(outlet, sink, *n)?;
    }
    Ok(())
}

/// Puts the number of labels and each label, as words.
pub fn put_labels<O: Outlet, K: Sink>(
    outlet: &mut O,
    sink: &mut K,
    labels: &Labels,
) -> Result<(), WriteFault>
    ensures { Puts (outflow (K.written sink.old) (O.pending outlet.old) (K.faults sink.old))
        (outflow (K.written sink.new) (O.pending outlet.new) (K.faults sink.new)) result
        (number_word (length labels.now) ++ flat_map number_word labels.now) }
{
    put_number(outlet, sink, labels.len() as u64)?;
    for l in labels.as_slice() {
        put_number(outlet, sink, u64::from(*l))?;
    }
    Ok(())
}

/// Puts the lower-case digits of a few bytes.
fn put_hex<O: Outlet, K: Sink>(outlet: &mut O, sink: &mut K, piece: &[u8]) -> Result<(), WriteFault>
    requires { length piece.now ≤ 64 }
    ensures { Puts (outflow (K.written sink.old) (O.pending outlet.old) (K.faults sink.old))
        (outflow (K.written sink.new) (O.pending outlet.new) (K.faults sink.new)) result
        (encode_lower piece.now) }
{
    let mut room = [0; 2 * PIECE];
    let digits = &mut room[..2 * piece.len()];
    hex::encode_to_slice(piece, digits).unwrap();
    outlet.put(sink, digits)
}

/// Puts the bytes of a payload as they are spelled.
fn put_payload<O: Outlet, K: Sink>(
    outlet: &mut O,
    sink: &mut K,
    payload: &Payload,
) -> Result<(), WriteFault>
    ensures { Puts (outflow (K.written sink.old) (O.pending outlet.old) (K.faults sink.old))
        (outflow (K.written sink.new) (O.pending outlet.new) (K.faults sink.new)) result
        (payload_word payload.now) }
{
    if payload.is_empty() {
        return outlet.put(sink, b"-");
    }
    let mut rest = payload.as_slice();
    while !rest.is_empty() {
        let (piece, after) = rest.split_at(rest.len().min(PIECE));
        put_hex(outlet, sink, piece)?;
        rest = after;
    }
    Ok(())
}

/// Puts a payload as a word.
pub fn put_payload_word<O: Outlet, K: Sink>(
    outlet: &mut O,
    sink: &mut K,
    payload: &Payload,
) -> Result<(), WriteFault>
    ensures { Puts (outflow (K.written sink.old) (O.pending outlet.old) (K.faults sink.old))
        (outflow (K.written sink.new) (O.pending outlet.new) (K.faults sink.new)) result
        (word (payload_word payload.now)) }
{
    outlet.put(sink, b" ")?;
    put_payload(outlet, sink, payload)
}

/// Puts an edge as a word.
fn put_pair<O: Outlet, K: Sink>(outlet: &mut O, sink: &mut K, pair: &Pair) -> Result<(), WriteFault>
    ensures { Puts (outflow (K.written sink.old) (O.pending outlet.old) (K.faults sink.old))
        (outflow (K.written sink.new) (O.pending outlet.new) (K.faults sink.new)) result
        (pair_word pair.now) }
{
    put_number(outlet, sink, pair.d)?;
    outlet.put(sink, b":")?;
    put_payload(outlet, sink, &pair.p)
}

/// Puts the number of edges and each edge, as words.
pub fn put_pairs<O: Outlet, K: Sink>(
    outlet: &mut O,
    sink: &mut K,
    pairs: &Pairs,
) -> Result<(), WriteFault>
    ensures { Puts (outflow (K.written sink.old) (O.pending outlet.old) (K.faults sink.old))
        (outflow (K.written sink.new) (O.pending outlet.new) (K.faults sink.new)) result
        (number_word (length pairs.now) ++ flat_map pair_word pairs.now) }
{
    put_number(outlet, sink, pairs.len() as u64)?;
    let mut at = 0;
    while let Some(pair) = pairs.get(at) {
        put_pair(outlet, sink, pair)?;
        at += 1;
    }
    Ok(())
}
