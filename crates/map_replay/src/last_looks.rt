// The readers' last looks.
ghost use Rattle.std.specs.Prelude.{◌≡◌, ◌≤◌, [], List, All, vec_len, vec_capacity};
ghost use mathlib.Core.List.{IsPrefix};
ghost use Rattle.published.specs.Histories.{count_of};
ghost use Rattle.map_replay.specs.declared.question.Question.{Question};
ghost use Rattle.map_replay.specs.ReaderStates.{AreFinal, HasAsked};

use crate::reader_states::{FinalReadings, FinishedReader};
use crate::reading::Reading;
use batches::look_until;
use published::{Look, MapName, Note, Reader, Writer};
use std::sync::Wait;

/// Lets each reader look once more, and keeps the look of the first one, who stands last.
pub fn take_last_looks<M: MapName, R: Wait>(
    rt: &R,
    writer: &mut Writer,
    mut finished: Vec<FinishedReader<M>>,
    mut readings: Vec<Reading>,
) -> FinalReadings
    requires own { writer.old.origin ≡ M.origin }
    requires some { 1 ≤ vec_len finished }
    requires none { readings.items ≡ [] }
    requires room { vec_len finished ≤ vec_capacity readings }
    ensures { (questions : List Question) → All (HasAsked questions) finished.items →
        AreFinal writer.old.history questions (vec_len finished) result }
{
    let Some(first) = finished.pop() else {
        unreachable!()
    };
    let FinishedReader {
        reader,
        sightings,
        ..
    } = first;
    let look = last_look(rt, reader, writer.tell());
    let last = look.seen();
    readings.push_reserved(Reading { sightings, last });
    while let Some(next) = finished.pop() {
        let FinishedReader {
            reader,
            sightings,
            ..
        } = next;
        let other = last_look(rt, reader, writer.tell());
        let last = other.seen();
        readings.push_reserved(Reading { sightings, last });
        drop(other.leave());
    }
    FinalReadings { look, readings }
}

/// Learns the note, and looks until all of it is seen and no more.
fn last_look<R: Wait>(rt: &R, mut reader: Reader, note: Note) -> Look
    requires own { note.origin ≡ reader.origin }
    ensures seen { IsPrefix reader.batches result.batches }
    ensures told { IsPrefix note.batches result.batches }
    ensures length { count_of result.batches ≡ count_of note.batches }
{
    let length = note.length();
    reader.learn(note);
    for _turn in rt.forever() {
        let look = look_until(rt, reader);
        if look.seen() == length {
            return look;
        }
        // Never comes: what is shown is what the last note tells.
        reader = look.leave();
    }
    unreachable!()
}
