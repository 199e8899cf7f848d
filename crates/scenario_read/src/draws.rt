// Numbers drawn one after another.
ghost use Rattle.std.specs.Prelude.{◌≡◌, ◌≤◌, ◌<◌, ◌%◌, ◌-ℤ◌, pos};
ghost use Rattle.scenario_read.specs.Generator.{next_state, state_after, velocity};

use fixed_vec::V2;

/// The generator's state, 0 to 65,536.
#[derive(Drop)]
pub(crate) struct Draws {
    pub state: u32,
    ghost in_range: { state ≤ 65536 },
}

impl Draws {
    /// The next number below `bound`.
    pub(crate) fn draw(&mut self, bound: u32) -> u32
        requires { 0 < bound }
        ensures state { self.new.state ≡ next_state self.old.state }
        ensures value { result ≡ self.new.state % bound }
    {
        self.state = (75 * self.state + 74) % 65_537;
        self.state % bound
    }

    /// A vector of the next two numbers: each coordinate is -200 to 200.
    #[tactic(auto, unfolding(crate::specs::Generator::state_after))]
    pub(crate) fn velocity(&mut self) -> V2
        ensures state { self.new.state ≡ state_after 2 self.old.state }
        ensures value { result ≡ velocity (state_after 1 self.old.state % 401) (state_after 2 self.old.state % 401) }
    {
        let x = i64::from(self.draw(401)) - 200;
        let y = i64::from(self.draw(401)) - 200;
        V2 { x, y }
    }
}
