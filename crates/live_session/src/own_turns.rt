// The turns that the stepping thread takes for controllers.
ghost use Rattle.std.specs.Prelude.{◌≡◌, ◌+◌, ◌<◌, ◌≤◌, ℕ, OnOk, length};
ghost use Rattle.published_frames.specs.Names.{writer_history, writer_source};
ghost use Rattle.live_session.specs.Running.{IsPublished};
ghost use Rattle.live_session.specs.Steering.{AreLate, AreSteered, AreSteering, IsLate, IsSteered, IsSteering};

use crate::desk::Desk;
use crate::steered::{Steered, Steering};
use controller_turns::is_newer;
use fixed_vec::NoMemory;
use outside_io::Gate;
use post_box::PostBox;
use std::sync::Wait;

// The controller's turn on the present frame, where it had none on this frame or a later one.
fn turn_here<R: Wait, T, G: Gate>(
    rt: &R,
    gate: &G,
    desk: &Desk<T>,
    posts: &PostBox,
    steered: &mut Steered,
) -> Result<(), NoMemory>
    requires published { IsPublished desk.now.writer desk.now.stepper }
    requires steered { (number : ℕ) × IsSteered posts.now (writer_source desk.now.writer) (writer_history desk.now.writer) desk.now.stepper.frame.number number steered.old }
    ensures { (number : ℕ) → IsSteered posts.now (writer_source desk.now.writer) (writer_history desk.now.writer) desk.now.stepper.frame.number number steered.old
        → OnOk result (IsSteered posts.now (writer_source desk.now.writer) (writer_history desk.now.writer) (desk.now.stepper.frame.number + 1) number steered.new × IsLate (writer_history desk.now.writer) steered.new.last) }
{
    let _valid = desk.stepper.scenario();
    let frame = desk.stepper.frame();
    if !is_newer(steered.last, frame.number) {
        return Ok(());
    }
    steered.controller.pass(gate);
    steered
        .controller
        .turn(rt, frame, &mut steered.poster, posts)?;
    steered.last = Some(frame.number);
    Ok(())
}

// The same for a controller that may be on a thread.
fn own_turn<R: Wait, T, G: Gate>(
    rt: &R,
    gate: &G,
    desk: &Desk<T>,
    posts: &PostBox,
    steering: &mut Steering,
) -> Result<(), NoMemory>
    requires published { IsPublished desk.now.writer desk.now.stepper }
    requires steering { (number : ℕ) × IsSteering posts.now (writer_source desk.now.writer) (writer_history desk.now.writer) desk.now.stepper.frame.number number steering.old }
    ensures { (number : ℕ) → IsSteering posts.now (writer_source desk.now.writer) (writer_history desk.now.writer) desk.now.stepper.frame.number number steering.old
        → OnOk result (IsSteering posts.now (writer_source desk.now.writer) (writer_history desk.now.writer) (desk.now.stepper.frame.number + 1) number steering.new) }
{
    match steering {
        Steering::OnThread(_) => Ok(()),
        Steering::Here(steered) => turn_here(rt, gate, desk, posts, steered),
    }
}

/// The turns on the present frame of all controllers that have no thread.
pub(crate) fn own_turns<R: Wait, T, G: Gate>(
    rt: &R,
    gate: &G,
    desk: &Desk<T>,
    posts: &PostBox,
    list: &mut Vec<Steering>,
) -> Result<(), NoMemory>
    requires published { IsPublished desk.now.writer desk.now.stepper }
    requires steering { AreSteering posts.now (writer_source desk.now.writer) (writer_history desk.now.writer) desk.now.stepper.frame.number list.old.items }
    ensures count { length list.new.items ≡ length list.old.items }
    ensures steering { OnOk result (AreSteering posts.now (writer_source desk.now.writer) (writer_history desk.now.writer) (desk.now.stepper.frame.number + 1) list.new.items) }
{
    for i in 0..list.len() {
        own_turn(rt, gate, desk, posts, &mut list[i])?;
    }
    Ok(())
}

/// The last turns: each controller's on the present frame, where it had none on this frame or a later one.
pub(crate) fn last_turns<R: Wait, T, G: Gate>(
    rt: &R,
    gate: &G,
    desk: &Desk<T>,
    posts: &PostBox,
    list: &mut Vec<Steered>,
) -> Result<(), NoMemory>
    requires published { IsPublished desk.now.writer desk.now.stepper }
    requires steered { AreSteered posts.now (writer_source desk.now.writer) (writer_history desk.now.writer) desk.now.stepper.frame.number list.old.items }
    ensures count { length list.new.items ≡ length list.old.items }
    ensures steered { OnOk result (AreLate posts.now (writer_source desk.now.writer) (writer_history desk.now.writer) (desk.now.stepper.frame.number + 1) list.new.items) }
{
    for i in 0..list.len() {
        turn_here(rt, gate, desk, posts, &mut list[i])?;
    }
    Ok(())
}
