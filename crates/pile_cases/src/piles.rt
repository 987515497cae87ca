//! The three layers in each of their orders over a unit, driven, and taken off one by one.
use crate::driving::Trial;
use crate::ledger::Ledger;
use crate::model::{Layer, Setting};
use banks::Bank;
use kinds::Kind;
use plain_numbers::Number;
use quota::Quota;
use run_sheet::RunSheet;
use units::Unit;
use window::Window;

/// A unit at the bottom, or layers on one.
pub(crate) trait Pile: Unit
where
    Self::Value: Number,
{
    /// Drives the pile, takes its uppermost layer off, and goes on with what lies below.
    fn drive(self, trial: &mut Trial<'_>);
}

impl<K: Kind + Drop> Pile for Bank<K>
where
    K::Value: Number,
{
    fn drive(self, trial: &mut Trial<'_>) {
        let mut bank = self;
        trial.drive(&mut bank);
    }
}

impl Pile for Ledger {
    fn drive(self, trial: &mut Trial<'_>) {
        let mut ledger = self;
        trial.drive(&mut ledger);
        let same = ledger.records() == trial.model.bottom_records();
        trial.tally.expect(same);
    }
}

impl<U: Pile> Pile for Quota<U>
where
    U::Value: Number,
{
    fn drive(self, trial: &mut Trial<'_>) {
        let mut quota = self;
        trial.drive(&mut quota);
        trial.model.take_off();
        quota.take_off().drive(trial);
    }
}

impl<U: Pile> Pile for Window<U>
where
    U::Value: Number,
{
    fn drive(self, trial: &mut Trial<'_>) {
        let mut window = self;
        trial.drive(&mut window);
        trial.model.take_off();
        window.take_off().drive(trial);
    }
}

impl<U: Pile> Pile for RunSheet<U>
where
    U::Value: Number,
{
    fn drive(self, trial: &mut Trial<'_>) {
        let mut sheet = self;
        trial.drive(&mut sheet);
        trial.compare_sheet(&sheet);
        trial.model.take_off();
        sheet.take_off().drive(trial);
    }
}

impl Setting {
    fn quota<U: Unit>(self, below: U) -> Quota<U> {
        Quota::new(below, self.limit)
    }

    fn window<U: Unit>(self, below: U) -> Window<U> {
        Window::new(below, self.from, self.size)
    }
}

/// Drives the pile that the model is of, over a unit.
pub(crate) fn drive_pile<B: Pile>(unit: B, trial: &mut Trial<'_>)
where
    B::Value: Number,
{
    let set = trial.model.setting;
    match trial.model.layers {
        [Layer::Quota, Layer::Window, ..] => set
            .quota(set.window(RunSheet::new(unit)))
            .drive(trial),
        [Layer::Quota, ..] => set.quota(RunSheet::new(set.window(unit))).drive(trial),
        [Layer::Window, Layer::Quota, ..] => set
            .window(set.quota(RunSheet::new(unit)))
            .drive(trial),
        [Layer::Window, ..] => set.window(RunSheet::new(set.quota(unit))).drive(trial),
        [Layer::RunSheet, Layer::Quota, ..] => RunSheet::new(set.quota(set.window(unit))).drive(
            trial,
        ),
        _ => RunSheet::new(set.window(set.quota(unit))).drive(trial),
    }
}
