//! The parts of a plan: the list 1, 2, 3 and on, the doublings for a digit, and all the steps for a digit.
ghost use Rattle.std.specs.Prelude.{◌≡◌, ◌+◌, ◌-◌, ◌*◌, ◌^◌, ◌<◌, ◌≤◌, length};
ghost use Rattle.std.proofs.lemmas.List.Edits.{sets};
ghost use Rattle.planning.specs.Planning.{step};
ghost use Rattle.planning.specs.Steps.{Pushed};
ghost use Rattle.digit_plans.specs.Digits.{count_from, doubles, one_digit};

use crate::widths::Width;
use planning::{Reached, StepWriter};

// A value of the list 1, 2, 3 and on, and its number there.
pub(crate) fn listed(value: u64) -> Reached
    requires low { 1 ≤ value }
    requires high { value < 2 ^ 16 }
    ensures number { result.number ≡ value - 1 }
    ensures value { result.value ≡ value }
{
    Reached {
        number: (value - 1) as u16,
        value,
    }
}

// Writes the step that cites j and k and makes this value, for which there is room. Answers the value with its number.
// Callers have worked the sum out and know that it fits; the writer's `add` would do both again.
fn write_value(steps: &mut StepWriter<'_>, j: u16, k: u16, value: u64) -> Reached
    requires room { steps.old.len < 128 }
    ensures same_table { steps.new.table.ghost_name ≡ steps.old.table.ghost_name }
    ensures written { Pushed steps.old steps.new (step j k value) }
    ensures number { result.number ≡ steps.new.len }
    ensures value { result.value ≡ value }
{
    steps.push(j, k, value).unwrap();
    Reached {
        number: steps.len() as u16,
        value,
    }
}

// Writes the list up to `last`: each value is made from the one before and a_0.
pub(crate) fn write_list(steps: &mut StepWriter<'_>, last: u64)
    requires first { steps.old.len ≡ 0 }
    requires low { 1 ≤ last }
    requires high { last < 32 }
    ensures same_table { steps.new.table.ghost_name ≡ steps.old.table.ghost_name }
    ensures count { steps.new.len ≡ last - 1 }
    ensures after { steps.new.table.now ≡ sets steps.old.table.now 0 (count_from (last - 1) 0) }
{
    for value in 1..last {
        write_value(steps, (value - 1) as u16, 0, value + 1);
    }
}

// Doubles a value once for each bit of a digit, and answers what comes of it. A doubling below the number of digits is no step, its value being in the list.
fn write_doubles(steps: &mut StepWriter<'_>, width: Width, from: Reached) -> Reached
    requires positive { 1 ≤ from.value }
    requires bounded { from.value * 2 ^ width.bits < 2 ^ 63 }
    requires room { steps.old.len + width.bits ≤ 128 }
    ensures same_table { steps.new.table.ghost_name ≡ steps.old.table.ghost_name }
    ensures count { steps.new.len ≡ steps.old.len + length (doubles (2 ^ width.bits) width.bits steps.old.len from.number from.value) }
    ensures within { steps.new.len ≤ steps.old.len + width.bits }
    ensures after { steps.new.table.now ≡ sets steps.old.table.now steps.old.len (doubles (2 ^ width.bits) width.bits steps.old.len from.number from.value) }
    ensures number { result.number ≡ steps.new.len }
    ensures value { result.value ≡ from.value * 2 ^ width.bits }
{
    let m = width.digit_count();
    let mut source = from;
    for _bit in 0..width.bits {
        let twice = source.value + source.value;
        source = if twice < m {
            listed(twice)
        } else {
            write_value(steps, source.number, source.number, twice)
        };
    }
    source
}

// Writes the steps for one digit: the doublings, and the digit added unless it is 0. Answers the value that they make.
pub(crate) fn write_digit(
    steps: &mut StepWriter<'_>,
    width: Width,
    from: Reached,
    digit: u64,
) -> Reached
    requires digit { digit < 2 ^ width.bits }
    requires positive { 1 ≤ from.value }
    requires bounded { from.value * 2 ^ width.bits + digit < 2 ^ 63 }
    requires room { steps.old.len + width.bits < 128 }
    ensures same_table { steps.new.table.ghost_name ≡ steps.old.table.ghost_name }
    ensures count { steps.new.len ≡ steps.old.len + length (one_digit width.bits digit steps.old.len from.number from.value) }
    ensures after { steps.new.table.now ≡ sets steps.old.table.now steps.old.len (one_digit width.bits digit steps.old.len from.number from.value) }
    ensures number { result.number ≡ steps.new.len }
    ensures value { result.value ≡ from.value * 2 ^ width.bits + digit }
{
    let shifted = write_doubles(steps, width, from);
    if digit == 0 {
        return shifted;
    }
    write_value(
        steps,
        shifted.number,
        listed(digit).number,
        shifted.value + digit,
    )
}
