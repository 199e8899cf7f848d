// How far a reader of scenarios has come.
ghost use Rattle.std.specs.Prelude.{◌≡◌, ◌≢◌, ◌≤◌, All, AllPairs, length, true, unwrap_or};
ghost use Rattle.std.specs.Option.{ForSome};
ghost use Rattle.crowd_data.specs.Limits.{IsAgent, IsGoal, IsScriptPost, IsSegment};
ghost use Rattle.crowd_data.specs.Goals.{IsGoalTable};
ghost use Rattle.crowd_data.specs.Scenario.{HasPlainParts};
ghost use Rattle.crowd_data.specs.declared.limits.TheConstants.{FIRST_VERSION, PLAIN_RING, MOST_AGENTS, MOST_POSTS, MOST_SEGMENTS, MOST_STEPS};
ghost use Rattle.crowd_data.specs.declared.post.Goal.{Goal};
ghost use Rattle.crowd_data.specs.declared.post.ScriptPost.{ScriptPost};
ghost use Rattle.scenario_read.specs.Read.{IsKnown};
ghost use Rattle.scenario_read.specs.RingRecord.{is_ring};

use crowd_data::{Agent, Goal, ScriptPost, Segment};
use fixed_vec::List;

// What was read so far. The posts need steps, so before there are any the list of posts is empty.
#[derive(Drop)]
pub(crate) struct Reading {
    // None before the header.
    pub version: Option<u32>,
    pub ring: Option<u32>,
    pub steps: Option<u32>,
    pub agents: List<Agent>,
    pub segments: List<Segment>,
    pub posts: List<ScriptPost>,
    pub goals: List<Goal>,
    // One flag an agent: whether it has a goal.
    pub goal_table: List<bool>,
    ghost some_version: { ForSome version IsKnown },
    ghost some_ring: { ForSome ring (λ points. is_ring points ≡ true) },
    ghost plain: { unwrap_or version FIRST_VERSION ≡ FIRST_VERSION → HasPlainParts (unwrap_or ring PLAIN_RING) agents.items },
    ghost some_steps: { ForSome steps (λ n. n ≤ MOST_STEPS) },
    ghost fit_agents: { All IsAgent agents.items },
    ghost agent_count: { length agents.items ≤ MOST_AGENTS },
    ghost fit_segments: { All IsSegment segments.items },
    ghost segment_count: { length segments.items ≤ MOST_SEGMENTS },
    ghost fit_posts: { All (IsScriptPost (unwrap_or steps 0) (length agents.items)) posts.items },
    ghost post_count: { length posts.items ≤ MOST_POSTS },
    ghost post_order: { AllPairs (λ (p : ScriptPost) (q : ScriptPost). p.frame ≤ q.frame) posts.items },
    ghost fit_goals: { All (IsGoal (length agents.items)) goals.items },
    ghost one_goal: { AllPairs (λ (g : Goal) (h : Goal). g.agent ≢ h.agent) goals.items },
    ghost table_size: { length goal_table.items ≡ length agents.items },
    ghost table: { IsGoalTable goal_table.items goals.items },
}
