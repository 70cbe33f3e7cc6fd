//! What a team works at.
ghost use Rattle.std.specs.Prelude.{◌≡◌, ◌≢◌, ℕ};
ghost use Rattle.orc_team.specs.{Site.{Site}, Learning.{LearnEach}};

/// What the workers of a team work at: one container, or several. A worker's desk has its passes of them, which learn from those
/// of others: once a desk has learned from all others, it has seen the calls of each; once it has done so again, so have the others.
pub trait Workplace {
    /// The passes of one agent.
    type Desk: Drop;

    // the containers
    ghost site: { Self → Site Self.Desk };

    /// The number of the desk's agent.
    fn agent(&self, desk: &Self::Desk) -> u32
        requires { (by : ℕ) × (site self.now).usable by desk.now }
        ensures { (by : ℕ) → (site self.now).usable by desk.now → result ≡ by };

    /// Lets each of the desks of two agents see what the other has seen. It makes no step.
    fn learn(&self, me: u32, desk: &mut Self::Desk, other: u32, more: &mut Self::Desk)
        requires desk { (site self.now).usable me desk.old }
        requires more { (site self.now).usable other more.old }
        requires two { me ≢ other }
        ensures desk { (site self.now).usable me desk.new }
        ensures more { (site self.now).usable other more.new }
        ensures learned { LearnEach (site self.now) me other desk.old more.old desk.new more.new };
}
