// How much the calls to come may cost, and how many calls drew.
ghost use Rattle.std.specs.Prelude.{◌≡◌, ◌+◌, ◌^◌, ◌<◌, ◌≤◌, MatchResult};
ghost use Rattle.screen.specs.Purses.{work_of, left_of, Pays, Lacks};

use terminal::Fault;

#[derive(Clone, Copy)]
pub(crate) struct Purse {
    left: u32,
    work: u32,
}

impl Purse {
    pub(crate) fn new(total: u32) -> Purse
        ensures { (left_of result ≡ total) × (work_of result ≡ 0) }
    {
        Purse {
            left: total,
            work: 0,
        }
    }

    pub(crate) fn work(&self) -> u32
        ensures { result ≡ work_of self.now }
    {
        self.work
    }

    pub(crate) fn left(&self) -> u32
        ensures { result ≡ left_of self.now }
    {
        self.left
    }

    // Pays for a call of this cost, which counts as so much work: no more than it costs, so that it can be counted.
    pub(crate) fn pay(&mut self, cost: usize, work: u32) -> Result<(), Fault>
        requires work { work ≤ cost }
        requires counted { work_of self.old + left_of self.old < 2 ^ 32 }
        ensures { MatchResult result (λ _. Pays cost work self.old self.new) (Lacks cost self.old self.new) }
    {
        if (self.left as usize) < cost {
            return Err(Fault::Full);
        }
        self.left -= cost as u32;
        self.work += work;
        Ok(())
    }
}
