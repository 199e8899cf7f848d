// Parts that are valid, and one refusal of each kind.
use crowd_data::{Agent, Goal, ScriptPost, Segment, valid};
use fixed_vec::V2;

const AGENT: Agent = Agent {
    pos: V2 { x: 0, y: 0 },
    vel: V2 { x: 0, y: 0 },
    pref: V2 { x: 300, y: 0 },
    radius: 500,
    speed: 400,
    range: 15_000,
    most: 10,
    horizon: 10,
    wall_horizon: 4,
    weight: 1,
};

// A wall that the agent touches.
const SEGMENT: Segment = Segment {
    a: V2 { x: -2_000, y: 500 },
    b: V2 { x: 2_000, y: 500 },
};

const POST: ScriptPost = ScriptPost {
    frame: 1,
    agent: 0,
    vel: V2 { x: 100, y: 0 },
};

const GOAL: Goal = Goal {
    controller: 15,
    agent: 0,
    at: V2 { x: 9, y: 9 },
    pace: 300,
};

// The callers learn nothing of these helpers, so that no proof computes on the parts.

fn is_valid(agents: &[Agent], segments: &[Segment], posts: &[ScriptPost], goals: &[Goal]) -> bool {
    valid(1, 36, 2, agents, segments, posts, goals)
}

fn has_valid_steps(steps: u32) -> bool {
    valid(1, 36, steps, &[AGENT], &[], &[], &[])
}

fn has_valid_agents(agent: Agent) -> bool {
    is_valid(&[AGENT, agent], &[], &[], &[])
}

fn has_valid_segments(segment: Segment) -> bool {
    is_valid(&[AGENT], &[SEGMENT, segment], &[], &[])
}

fn has_valid_posts(post: ScriptPost) -> bool {
    is_valid(&[AGENT, AGENT], &[], &[POST, post], &[])
}

fn has_valid_goals(goal: Goal) -> bool {
    is_valid(&[AGENT, AGENT], &[], &[], &[GOAL, goal])
}

fn has_valid_version(version: u32, ring: u32, weight: u32) -> bool {
    valid(
        version,
        ring,
        2,
        &[AGENT, Agent { weight, ..AGENT }],
        &[],
        &[],
        &[],
    )
}

fn are_agents_few() -> bool {
    is_valid(&[AGENT; 10_001], &[], &[], &[])
}

fn are_segments_few() -> bool {
    is_valid(&[AGENT], &[SEGMENT; 2_001], &[], &[])
}

#[test]
fn valid_parts(rt: HostRuntime) {
    assert!(rt; is_valid(&[], &[], &[], &[]));
    assert!(rt; is_valid(&[AGENT], &[SEGMENT], &[POST], &[GOAL]));
    assert!(rt; has_valid_steps(100_000));
    assert!(rt; has_valid_agents(AGENT));
    assert!(rt; has_valid_segments(SEGMENT));
    assert!(rt; has_valid_posts(ScriptPost { frame: 2, ..POST }));
    assert!(rt; has_valid_goals(Goal { agent: 1, ..GOAL }));
}

#[test]
fn too_many_of_them(rt: HostRuntime) {
    assert!(rt; !has_valid_steps(100_001));
    assert!(rt; !are_agents_few());
    assert!(rt; !are_segments_few());
}

#[test]
fn one_number_beyond_its_limit(rt: HostRuntime) {
    assert!(rt; !has_valid_agents(Agent { radius: 0, ..AGENT }));
    assert!(rt;
        !has_valid_agents(Agent {
            speed: 16_385,
            ..AGENT
        })
    );
    assert!(rt;
        !has_valid_agents(Agent {
            horizon: 0,
            ..AGENT
        })
    );
    let far = V2 {
        x: 0,
        y: -4_194_305,
    };
    assert!(rt; !has_valid_agents(Agent { pos: far, ..AGENT }));
    assert!(rt; !has_valid_segments(Segment { b: far, ..SEGMENT }));
    assert!(rt;
        !has_valid_goals(Goal {
            agent: 1,
            at: far,
            ..GOAL
        })
    );
    assert!(rt;
        !has_valid_goals(Goal {
            agent: 1,
            controller: 16,
            ..GOAL
        })
    );
}

#[test]
fn posts_and_goals_out_of_place(rt: HostRuntime) {
    assert!(rt; !has_valid_posts(ScriptPost { frame: 3, ..POST }));
    assert!(rt; !has_valid_posts(ScriptPost { agent: 2, ..POST }));
    // before the one of frame 1
    assert!(rt; !has_valid_posts(ScriptPost { frame: 0, ..POST }));
    assert!(rt; !is_valid(&[AGENT], &[], &[ScriptPost { frame: 2, ..POST }, POST], &[]));
    assert!(rt; !has_valid_goals(Goal { agent: 2, ..GOAL }));
    // the second goal of one agent
    assert!(rt; !has_valid_goals(GOAL));
}

#[test]
fn agent_on_a_segment(rt: HostRuntime) {
    let wider = Agent {
        radius: 501,
        ..AGENT
    };
    assert!(rt; !is_valid(&[wider], &[SEGMENT], &[], &[]));
}

#[test]
fn version_1_has_no_weights_and_the_plain_ring(rt: HostRuntime) {
    assert!(rt; has_valid_version(1, 36, 1));
    assert!(rt; has_valid_version(2, 36, 16));
    assert!(rt; has_valid_version(2, 60, 1));
    assert!(rt; !has_valid_version(1, 36, 2));
    assert!(rt; !has_valid_version(1, 60, 1));
    assert!(rt; !has_valid_version(2, 60, 0));
    assert!(rt; !has_valid_version(2, 60, 17));
    assert!(rt; !has_valid_version(2, 48, 1));
    assert!(rt; !has_valid_version(3, 36, 1));
}
