//! Worked cases: the plans, needs and powers that were worked by hand, proved by one computed test, and tables of inputs that are run and compared.
#![tactic(auto)]

ghost use Rattle.std.specs.Prelude.{◌≡◌};
ghost use Rattle.worked.specs.Cases.{WorkedCases, OneCases, case_count};

#[cfg(test)]
mod tests;

/// How many cases were worked by hand; each holds of the definitions that the contracts cite.
pub fn worked_cases() -> u8
    ensures value { result ≡ case_count }
    ensures cases { WorkedCases }
    ensures ones { OneCases }
{
    15
}
