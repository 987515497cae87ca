//! The steps of a plan, written one after another into the front of the caller's table.
ghost use Rattle.std.specs.Prelude.{◌≡◌, ◌≤◌};

use plans::{MOST_STEPS, Step};
use refusals::Refusal;

/// A value of the plan under way, and its number: a_0 is the value number 0.
#[derive(Clone, Copy)]
pub struct Reached {
    pub number: u16,
    pub value: u64,
}

impl Reached {
    /// a_0, which is 1.
    pub const ONE: Reached = Reached {
        number: 0,
        value: 1,
    };
}

/// The places for a plan, and how many of its steps stand there.
#[derive(Drop)]
pub struct StepWriter<'a> {
    table: &'a mut [Step; MOST_STEPS],
    len: usize,
    ghost within: { len ≤ 128 },
}

impl<'a> StepWriter<'a> {
    ghost use Rattle.std.specs.Prelude.{◌≡◌, ◌+◌, ◌^◌, ◌<◌, ◌≤◌, IfOk, IsOk, MatchResult};
    ghost use Rattle.planning.specs.Planning.{step};
    ghost use Rattle.planning.specs.Steps.{next_step, next_value, Pushed, Kept};

    /// Places where no step of the plan stands yet.
    pub fn new(table: &'a mut [Step; MOST_STEPS]) -> StepWriter<'a>
        ensures same_table { result.table.ghost_name ≡ table.entry.ghost_name }
        ensures table { result.table.now ≡ table.old }
        ensures len { result.len ≡ 0 }
    {
        StepWriter { table, len: 0 }
    }

    /// How many steps stand there.
    pub fn len(&self) -> usize
        ensures count { result ≡ self.now.len }
        ensures within { result ≤ 128 }
    {
        self.len
    }

    // Writes the next step, for which there is room.
    fn write(&mut self, j: u16, k: u16, value: u64)
        requires room { self.old.len < 128 }
        ensures same_table { self.new.table.ghost_name ≡ self.old.table.ghost_name }
        ensures written { Pushed self.old self.new (step j k value) }
    {
        self.table[self.len] = Step { j, k, value };
        self.len += 1;
    }

    /// Writes the next step, which cites the values number j and k. Refused where 128 steps stand.
    pub fn push(&mut self, j: u16, k: u16, value: u64) -> Result<(), Refusal>
        ensures answer { result ≡ next_step self.old.len }
        ensures same_table { self.new.table.ghost_name ≡ self.old.table.ghost_name }
        ensures written { MatchResult result (λ _. Pushed self.old self.new (step j k value)) (λ _. Kept self.old self.new) }
    {
        if self.len == MOST_STEPS {
            return Err(Refusal::TooLong);
        }
        self.write(j, k, value);
        Ok(())
    }

    /// Writes the next step, the sum of two values of the plan, and answers the value that it makes. Refused where the sum has more than 64 bits, or 128 steps stand.
    pub fn add(&mut self, x: Reached, y: Reached) -> Result<Reached, Refusal>
        ensures answer { result ≡ next_value self.old.len x y }
        ensures fits { self.old.len < 128 → x.value + y.value < 2 ^ 64 → IsOk result }
        ensures same_table { self.new.table.ghost_name ≡ self.old.table.ghost_name }
        ensures written { MatchResult result (λ made. Pushed self.old self.new (step x.number y.number made.value)) (λ _. Kept self.old self.new) }
        ensures made { IfOk result (λ made. (made.number ≡ self.new.len) × (made.value ≡ x.value + y.value)) }
    {
        let (value, wraps) = x.value.overflowing_add(y.value);
        // one test for both refusals, which the methods never meet
        if wraps | (self.len == MOST_STEPS) {
            return Err(if wraps {
                Refusal::NotRising(self.len as u64 + 1)
            } else {
                Refusal::TooLong
            });
        }
        self.write(x.number, y.number, value);
        Ok(Reached {
            number: self.len as u16,
            value,
        })
    }
}
