//! Performs a list of calls on a unit, and compares each answer, and what is there after the list, with the table.
use crate::table::{Ask, List, TABLE, Told, table_after};
use calls::{Answer, Call, perform};
use plain_numbers::refused::{METHOD, TABLE_SHORT};
use plain_numbers::{Number, Refused};
use plans::{NO_STEP, Plan};
use refusals::Refusal;
use std::alloc::{AllocError, Global};
use std::fmt;
use std::num::Saturating;
use units::Unit;

/// What became of the allowance.
#[derive(Clone, Copy)]
pub(crate) struct Spending {
    /// The lengths of the accepted runs, by the table.
    pub(crate) spent: u64,
    /// The allowance after the list.
    pub(crate) left: u64,
}

/// A list, and what came of it.
#[derive(Clone, Copy)]
pub(crate) struct Tally {
    list: List,
    /// How many answers are not the table's.
    answers: usize,
    /// How much else is not as it should be.
    states: Saturating<u32>,
    spending: Spending,
    /// What the list with too few places for answers is answered.
    short: Result<(), Refused>,
}

impl fmt::Display for Tally {
    fn fmt<W: fmt::Write>(&self, f: &mut fmt::Formatter<W>) -> fmt::Result {
        let rows = self.list.rows;
        let refused = rows.iter().filter(|(_, told)| told.is_refused()).count();
        let Tally {
            answers,
            states,
            spending: Spending { spent, left },
            ..
        } = self;
        let calls = rows.len();
        write!(
            f,
            "{calls} calls, {refused} of them refused, {answers} answers differ; "
        )?;
        write!(
            f,
            "{spent} multiplications made, {left} left, {states} states differ; "
        )?;
        match &self.short {
            Ok(()) => write!(f, "one answer place less: accepted"),
            Err(e) => write!(f, "one answer place less: {e}"),
        }
    }
}

// An answer that no call of the lists gives; it stands in each place before the list is made.
fn untold<V>() -> Answer<V> {
    Answer::Loaded(Err(Refusal::Method))
}

// The same as the table has answers.
const UNTOLD: Told = Told::Loaded(Err(Refused(METHOD, 0)));

// A row's call. A plan that is not admitted becomes that of 1, and the answer is then another.
fn call_of<V: Number>(ask: Ask) -> Call<'static, V> {
    match ask {
        Ask::Load(cell, value) => Call::load(cell, V::of(value)),
        Ask::Read(cell) => Call::read(cell),
        Ask::Run(known, base) => Call::run(known.plan().unwrap_or(Plan::one()), V::of(base)),
        Ask::Job(sheet, n, base) => Call::job(sheet, n, V::of(base)),
    }
}

fn told_of<V: Number>(answer: Answer<V>) -> Told {
    match answer {
        Answer::Loaded(done) => Told::Loaded(done.map_err(Refused::from)),
        Answer::Got(value) => Told::Read(value.map(|v| v.number()).map_err(Refused::from)),
        Answer::Power(power) => Told::Ran(
            power
                .map(|raised| raised.value.number())
                .map_err(Refused::from),
        ),
        Answer::Carried(power) => Told::Job(
            power
                .map(|raised| raised.value.number())
                .map_err(|e| (e.stage(), Refused(e.number(), e.place()))),
        ),
    }
}

// How many answers are not those of the rows; a place beyond the rows is to be as it was.
fn count_differing<V: Number>(rows: &[(Ask, Told)], answers: &[Answer<V>]) -> usize {
    answers
        .iter()
        .enumerate()
        .filter(|(i, answer)| told_of(**answer) != rows.get(*i).map_or(UNTOLD, |row| row.1))
        .count()
}

impl Tally {
    // What the table says of a list.
    fn of(list: List) -> Tally {
        let spent = list.rows.iter().filter(|(_, told)| !told.is_refused()).fold(
            0u64,
            |spent, (ask, _)| spent.saturating_add(ask.length() as u64),
        );
        Tally {
            list,
            answers: 0,
            states: Saturating(0),
            spending: Spending { spent, left: 0 },
            short: Ok(()),
        }
    }

    // Counts what does not hold.
    fn expect(&mut self, holds: bool) {
        self.states += u32::from(!holds);
    }

    // Whether a unit is as new: its cells all empty, its allowance whole.
    fn is_new<U: Unit>(&self, unit: &U) -> bool {
        unit.cells() == self.list.cells
            && unit.allowance() == self.list.start
            && (0..unit.cells()).all(|cell| unit.read(cell).is_err())
    }

    // Performs the list with too few places for answers, which changes nothing.
    fn try_short<U: Unit>(
        &mut self,
        unit: &mut U,
        calls: &[Call<'_, U::Value>],
        answers: &mut [Answer<U::Value>],
    )
    where
        U::Value: Number,
    {
        let mut table = [NO_STEP; TABLE];
        let short = perform(unit, calls, answers, &mut table).map_err(Refused::from);
        let wanted = self.list.rows.len() as u64;
        self.expect(short == Err(Refused(TABLE_SHORT, wanted)));
        let new = self.is_new(unit);
        self.expect(new);
        self.short = short;
        self.expect(count_differing(&[], answers) == 0);
        self.expect(table == [NO_STEP; TABLE]);
    }

    // Performs the list, and compares each answer, and then the allowance and the step table.
    fn try_whole<U: Unit>(
        &mut self,
        unit: &mut U,
        calls: &[Call<'_, U::Value>],
        answers: &mut [Answer<U::Value>],
    )
    where
        U::Value: Number,
    {
        let mut table = [NO_STEP; TABLE];
        self.expect(perform(unit, calls, answers, &mut table).is_ok());
        self.answers = count_differing(self.list.rows, answers);
        self.spending.left = unit.allowance();
        let Spending { spent, left } = self.spending;
        self.expect(self.list.start.checked_sub(spent) == Some(left));
        self.expect(table == table_after());
    }
}

/// Performs the list on a new unit, once with one place too few for the answers, and once with one more than they want, and compares what comes of it with the table;
/// and last whether what lies below the unit agrees.
pub(crate) fn try_list<U: Unit + Drop, F: FnOnce(U, Spending) -> bool>(
    heap: Global,
    mut unit: U,
    list: List,
    agrees: F,
) -> Result<Tally, AllocError>
where
    U::Value: Number,
    requires { F.IsAlwaysCallable agrees }
{
    let mut calls = Vec::new(heap);
    for (ask, _) in list.rows {
        calls.push(call_of(*ask))?;
    }
    let mut tally = Tally::of(list);
    let mut answers = vec![in heap; untold(); calls.len().saturating_sub(1)]?;
    tally.try_short(&mut unit, calls.as_slice(), answers.as_mut_slice());
    let mut answers = vec![in heap; untold(); calls.len().saturating_add(1)]?;
    tally.try_whole(&mut unit, calls.as_slice(), answers.as_mut_slice());
    let agreed = agrees(unit, tally.spending);
    tally.expect(agreed);
    Ok(tally)
}
