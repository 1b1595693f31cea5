ghost use Rattle.std.specs.Prelude.{◌≡◌, ◌↔◌, IsErr, IsTrue};
ghost use Rattle.norm_base.specs.Calls.{no_calls, next_fails, after_call};

use crate::Failed;
use std::marker::Model;

// Which calls of a device in memory are to fail, how many were made, and how many have failed.
#[derive(Drop)]
pub struct Calls {
    fails: Vec<u64>,
    made: u64,
    failed: u64,
}

impl Model for Calls {
    ghost use Rattle.norm_base.specs.Calls.{Calls};

    ghost Value = { Calls };

    ghost view = { λ c. record { fails = c.fails.items; made = c.made; failed = c.failed } };
}

impl Calls {
    pub fn new(fails: Vec<u64>) -> Calls
        ensures { result ≡ no_calls fails.items }
    {
        Calls {
            fails,
            made: 0,
            failed: 0,
        }
    }

    // Whether the number of the next call is one of those that are to fail.
    fn next_fails(&self) -> bool
        ensures { result ≡ next_fails self.now }
    {
        self.made < u64::MAX && self.fails.contains(&(self.made + 1))
    }

    // Makes the next call, which fails where its number is one of those that are to fail.
    pub fn turn(&mut self) -> Result<(), Failed>
        ensures calls { self.new ≡ after_call self.old }
        ensures failed { IsErr result ↔ IsTrue (next_fails self.old) }
    {
        let is_failing = self.next_fails();
        self.made = self.made.saturating_add(1);
        if is_failing {
            self.failed = self.failed.saturating_add(1);
            return Err(Failed);
        }
        Ok(())
    }
}
