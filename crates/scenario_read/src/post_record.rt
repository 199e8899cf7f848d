// The record of a scripted post.
ghost use Rattle.std.specs.Prelude.{◌≡◌, ◌≤◌, IfOk};
ghost use Rattle.csv.specs.Records.{fields_of};
ghost use Rattle.crowd_data.specs.Limits.{IsVelocity};
ghost use Rattle.scenario_read.specs.Additions.{Adds, read_of};
ghost use Rattle.scenario_read.specs.PostRecord.{keeps_order, last_post, post_of, with_post};
ghost use Rattle.scenario_read.specs.Values.{and_then};

use crate::cause::Cause;
use crate::reading::Reading;
use crate::record_fault::RecordFault;
use crate::values::{count_in, vector_in};
use crowd_data::{GREATEST_AGENT, GREATEST_SPEED, MOST_POSTS, MOST_STEPS, ScriptPost};
use csv::ByteRecord;

#[tactic(auto, unfolding(crate::specs::PostRecord::post_of))]
fn post_of(row: &ByteRecord) -> Result<ScriptPost, Cause>
    ensures value { result ≡ post_of (fields_of row.now) }
    ensures frame { IfOk result (λ post. 1 ≤ post.frame) }
    ensures vel { IfOk result (λ post. IsVelocity post.vel) }
{
    if row.len() != 5 {
        return Err(Cause::FieldCount);
    }
    let frame = count_in(row, 1, 1, MOST_STEPS)?;
    let agent = count_in(row, 2, 0, GREATEST_AGENT)?;
    let vel = vector_in(row, 3, 4, GREATEST_SPEED)?;
    Ok(ScriptPost { frame, agent, vel })
}

// Whether a frame isn't below that of the last post, if there is one.
fn keeps_order(posts: &[ScriptPost], frame: u32) -> bool
    ensures { result ≡ keeps_order (last_post posts.now) frame }
{
    match posts.last() {
        Some(before) => before.frame <= frame,
        None => true,
    }
}

/// Adds the post of a record.
pub(crate) fn add_post(reading: &mut Reading, row: &ByteRecord) -> Result<(), RecordFault>
    ensures { Adds (read_of reading.old) (read_of reading.new) result (and_then (post_of (fields_of row.now)) (with_post (read_of reading.old))) }
{
    let post = post_of(row)?;
    if reading.posts.items().len() >= MOST_POSTS as usize {
        return Err(RecordFault::Refused(Cause::TooMany));
    }
    let Some(steps) = reading.steps else {
        return Err(RecordFault::Refused(Cause::NoSteps));
    };
    if post.frame > steps {
        return Err(RecordFault::Refused(Cause::OutOfRange { field: 1 }));
    }
    if post.agent as usize >= reading.agents.items().len() {
        return Err(RecordFault::Refused(Cause::NoSuchAgent));
    }
    if !keeps_order(reading.posts.items(), post.frame) {
        return Err(RecordFault::Refused(Cause::PostOrder));
    }
    reading.posts.reserve(1)?;
    reading.posts.push(post);
    Ok(())
}
