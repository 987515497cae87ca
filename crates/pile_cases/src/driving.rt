//! Makes the calls on a unit and in the model, and compares each answer and all that the unit then shows.
use crate::model::Model;
use crate::table::{CALLS, Call, Sample};
use plain_numbers::{Number, Refused, Rule};
use run_sheet::RunSheet;
use runs::run;
use std::num::Saturating;
use std::{fmt, mem};
use units::{Record, Unit};

/// How many calls were compared, how many of them are accepted by the rules, and how many differ.
#[derive(Clone, Copy, Default)]
pub(crate) struct Tally {
    calls: Saturating<u32>,
    accepted: Saturating<u32>,
    differ: Saturating<u32>,
}

impl fmt::Display for Tally {
    fn fmt<W: fmt::Write>(&self, f: &mut fmt::Formatter<W>) -> fmt::Result {
        let Tally {
            calls,
            accepted,
            differ,
        } = self;
        write!(f, "{calls} calls, {accepted} accepted, {differ} differ")
    }
}

impl Tally {
    /// Counts what does not hold.
    pub(crate) fn expect(&mut self, holds: bool) {
        self.differ += u32::from(!holds);
    }
}

// Makes a call on a unit; answers the value that is handed out, if one is.
fn make<U: Unit>(unit: &mut U, rule: Rule, call: Call) -> Result<Option<u64>, Refused>
where
    U::Value: Number,
{
    match call {
        Call::Load(cell, sample) => {
            unit.load(cell, U::Value::of(sample.of(rule)))?;
            Ok(None)
        }
        Call::Read(cell) => Ok(Some(unit.read(cell)?.number())),
        Call::Multiply(to, a, b) => {
            unit.multiply(to, a, b)?;
            Ok(None)
        }
        Call::Run(known, sample) => {
            let raised = run(unit, &known.plan()?, U::Value::of(sample.of(rule)))?;
            Ok(Some(raised.value.number()))
        }
    }
}

/// A pile by the rules, and how far the units agree with it.
#[derive(Drop)]
pub(crate) struct Trial<'a> {
    pub(crate) model: Model<'a>,
    /// So many multiplications are made before the next calls.
    pub(crate) before: u16,
    pub(crate) tally: &'a mut Tally,
}

impl<'a> Trial<'a> {
    // Whether the unit shows what the model does: cells, allowance, and what each cell holds.
    fn is_same<U: Unit>(&self, unit: &U) -> bool
    where
        U::Value: Number,
    {
        let view = self.model.view();
        usize::from(unit.cells()) == view.cells
            && unit.allowance() == view.left
            && (0..unit.cells()).all(|cell| {
                unit.read(cell).ok().map(|v| v.number()) == self.model.held(view, cell)
            })
    }

    // Makes one call on both.
    fn try_call<U: Unit>(&mut self, unit: &mut U, call: Call)
    where
        U::Value: Number,
    {
        let told = make(unit, self.model.rule, call);
        let expected = self.model.make(call);
        let same = told == expected && self.is_same(unit);
        self.tally.calls += 1;
        self.tally.accepted += u32::from(expected.is_ok());
        self.tally.expect(same);
    }

    /// Makes the calls on a unit of as many layers as the model has; on the first, after so many multiplications as the trial has before them.
    pub(crate) fn drive<U: Unit>(&mut self, unit: &mut U)
    where
        U::Value: Number,
    {
        let before = mem::take(&mut self.before);
        if before > 0 {
            self.try_call(unit, Call::Load(0, Sample::One));
        }
        for _ in 0..before {
            self.try_call(unit, Call::Multiply(0, 0, 0));
        }
        for call in CALLS {
            self.try_call(unit, call);
        }
    }

    /// Compares the records of a run sheet with those of the model, all of them and by number, and that there is none before the first and after the last.
    pub(crate) fn compare_sheet<U: Unit>(&mut self, sheet: &RunSheet<U>) {
        let records = self.model.records();
        let same = sheet.len() == records.len()
            && sheet.records() == records
            && (0..records.len() + 2).all(|number| sheet.record(number)
                == numbered(records, number));
        self.tally.expect(same);
    }
}

// The record of a number, counted from 1, if there is one.
fn numbered(records: &[Record], number: usize) -> Option<Record> {
    records.get(number.checked_sub(1)?).copied()
}
