// Transcripts that are read, and the first causes of some that are none.
use frame_text::{Transcript, TranscriptCause, TranscriptFault, read_transcript};
use scenario_read::Cause;
use std::alloc::Global;
use std::test::Fail;

const ONE_STEP: &[u8] =
    b"crowd,1\nsteps,1\nagent,0,0,0,0,300,0,500,400,15000,0,10,4\nframe,0\nbody,0,0,0,0,0,300,0,start,0\nframe,1\nbody,0,300,0,300,0,300,0,feasible,0\nend,1\n";

// The transcript of a text. Its callers learn nothing of it, so that no proof computes on the text.
fn read(alloc: Global, bytes: &[u8]) -> Result<Transcript, TranscriptFault> {
    if bytes.len() < 1 << 32 {
        read_transcript(alloc, bytes)
    } else {
        Err(TranscriptFault::NoMemory)
    }
}

// The fault of a text, if it has one.
fn fault_of(alloc: Global, bytes: &[u8]) -> Option<TranscriptFault> {
    read(alloc, bytes).err()
}

// Whether a text is refused at this record for this cause.
fn is_refused(alloc: Global, bytes: &[u8], index: u32, cause: TranscriptCause) -> bool {
    fault_of(alloc, bytes) == Some(TranscriptFault::At { index, cause })
}

// The steps of a transcript, how many frames it has, and how many posts and goals its scenario.
fn counts_of(alloc: Global, bytes: &[u8]) -> Result<[usize; 4], Fail> {
    let transcript = read(alloc, bytes)?;
    Ok([
        transcript.scenario.steps() as usize,
        transcript.frames.items().len(),
        transcript.scenario.posts().len(),
        transcript.scenario.goals().len(),
    ])
}

// How many posts a transcript has in its frame of this number.
fn taken_in(alloc: Global, bytes: &[u8], number: u32) -> Result<usize, Fail> {
    for moves in read(alloc, bytes)?.frames.items() {
        if moves.frame.number == number {
            return Ok(moves.posts.items().len());
        }
    }
    Ok(0)
}

// The version and the ring of a transcript.
fn shape_of(alloc: Global, bytes: &[u8]) -> Result<[u32; 2], Fail> {
    let transcript = read(alloc, bytes)?;
    Ok([transcript.scenario.version(), transcript.scenario.ring()])
}

#[test]
fn one_step(rt: HostRuntime) -> Result<(), Fail> {
    assert_eq!(rt; counts_of(rt.alloc(), ONE_STEP)?, [1, 2, 0, 0]);
    Ok(())
}

#[test]
fn posts_taken_into_a_frame(rt: HostRuntime) -> Result<(), Fail> {
    let text: &[u8] =
        b"crowd,1\nsteps,1\nagent,0,0,0,0,0,0,500,400,15000,10,10,4\npost,1,0,100,0\npost,1,0,0,100\ngoal,0,0,1,2,3\nframe,0\nbody,0,0,0,0,0,0,0,start,0\nframe,1\ntake,16,0,0,100,0\ntake,16,4294967295,0,0,100\nbody,0,0,100,0,100,0,100,feasible,0\nend,1\n";
    assert_eq!(rt; counts_of(rt.alloc(), text)?, [1, 2, 2, 1]);
    assert_eq!(rt; taken_in(rt.alloc(), text, 0)?, 0);
    assert_eq!(rt; taken_in(rt.alloc(), text, 1)?, 2);
    Ok(())
}

#[test]
fn cut_at_every_byte(rt: HostRuntime) {
    for size in 0..ONE_STEP.len() {
        assert!(rt;
            fault_of(rt.alloc(), &ONE_STEP[..size]).is_some(),
            "cut after {size}"
        );
    }
}

#[test]
fn takes_out_of_place(rt: HostRuntime) {
    assert!(rt;
        is_refused(
            rt.alloc(),
            b"crowd,1\nsteps,1\nagent,0,0,0,0,0,0,500,400,15000,10,10,4\nframe,0\nbody,0,0,0,0,0,0,0,start,0\nframe,1\nbody,0,0,100,0,100,0,100,feasible,0\ntake,16,0,0,100,0\nend,1\n",
            7,
            TranscriptCause::Shape
        )
    );
    assert!(rt;
        is_refused(
            rt.alloc(),
            b"crowd,1\nsteps,1\nagent,0,0,0,0,0,0,500,400,15000,10,10,4\nframe,0\nbody,0,0,0,0,0,0,0,start,0\nframe,1\ntake,16,4294967296,0,100,0\nbody,0,0,100,0,100,0,100,feasible,0\nend,1\n",
            6,
            TranscriptCause::Shape
        )
    );
}

#[test]
fn first_causes(rt: HostRuntime) -> Result<(), Fail> {
    let scenario = b"crowd,1\nsteps,1\nagent,0,0,0,0,300,0,500,400,15000,0,10,4\n".as_slice();
    assert!(rt; is_refused(rt.alloc(), scenario, 3, TranscriptCause::Shape));
    assert!(rt;
        is_refused(
            rt.alloc(),
            b"crowd,3\n".as_slice(),
            0,
            TranscriptCause::Scenario(Cause::NoHeader)
        )
    );
    let cut =
        b"crowd,1\nsteps,1\nagent,0,0,0,0,300,0,500,400,15000,0,10,4\nframe,0\nbody,0,0,0,0,0,300,0,start,0\nframe,1\n".as_slice();
    assert!(rt; is_refused(rt.alloc(), cut, 6, TranscriptCause::Shape));
    let spelt =
        b"crowd,1\nsteps,1\nagent,0,0,0,0,300,0,500,400,15000,0,10,4\nframe,0\nbody,0,0,0,0,0,300,0,start,0\nframe,1\nbody,0,300,0,300,0,300,0,feasible,00\nend,1\n".as_slice();
    assert!(rt; is_refused(rt.alloc(), spelt, 6, TranscriptCause::Spelling));
    let behind_end = b"crowd,1\nsteps,0\nframe,0\nend,0\nend,0\n".as_slice();
    assert!(rt; is_refused(rt.alloc(), behind_end, 3, TranscriptCause::Shape));
    let marked = b"\xEF\xBB\xBFcrowd,1\nsteps,0\nframe,0\nend,0\n".as_slice();
    assert!(rt; is_refused(rt.alloc(), marked, 0, TranscriptCause::Spelling));
    let blank = b"crowd,1\nsteps,0\nframe,0\nend,0\n\n".as_slice();
    assert!(rt; is_refused(rt.alloc(), blank, 4, TranscriptCause::Spelling));
    let take_in_0 =
        b"crowd,1\nsteps,1\nagent,0,0,0,0,300,0,500,400,15000,0,10,4\nframe,0\ntake,16,0,0,1,1\n".as_slice();
    assert!(rt; is_refused(rt.alloc(), take_in_0, 4, TranscriptCause::Shape));
    Ok(())
}

#[test]
fn version_2(rt: HostRuntime) -> Result<(), Fail> {
    let text: &[u8] =
        b"crowd,2\nsteps,1\nring,60\nagent,0,0,0,0,3230,360,500,326,15000,10,10,4,1\nframe,0\nbody,0,0,0,0,0,3230,360,start,0\nframe,1\nbody,0,323,36,323,36,3230,360,feasible,0\nend,1\n";
    assert_eq!(rt; shape_of(rt.alloc(), text)?, [2, 60]);
    // the plain ring isn't printed
    assert!(rt;
        is_refused(
            rt.alloc(),
            b"crowd,2\nsteps,0\nring,36\nframe,0\nend,0\n",
            2,
            TranscriptCause::Spelling
        )
    );
    Ok(())
}
