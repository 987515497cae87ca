//! The rules of a pile on plain numbers: a bank's cells and allowance, and what the three layers over it add.
use crate::table::Call;
use arrayvec::ArrayVec;
use placing::place::place;
use plain_numbers::refused::{
    ALLOWANCE_BELOW, ALLOWANCE_SPENT, CELL_EMPTY, NEED_ABOVE, NO_SUCH_CELL, NOT_NATIVE,
};
use plain_numbers::{KnownPlan, Refused, Rule};
use plans::MOST_VALUES;
use std::fmt;
use units::Record;

/// The most records of a run sheet.
const MOST_RECORDS: usize = 1024;

/// The most records of the unit at the bottom, where it keeps any.
pub(crate) const MOST_KEPT: usize = 2048;

/// A layer.
#[derive(Clone, Copy)]
pub(crate) enum Layer {
    Quota,
    Window,
    RunSheet,
}

impl fmt::Display for Layer {
    fn fmt<W: fmt::Write>(&self, f: &mut fmt::Formatter<W>) -> fmt::Result {
        f.write_str(match self {
            Layer::Quota => "quota",
            Layer::Window => "window",
            Layer::RunSheet => "run sheet",
        })
    }
}

/// What a pile is made with.
#[derive(Clone, Copy)]
pub(crate) struct Setting {
    /// The allowance of the bank.
    pub(crate) allowance: u64,
    /// The limit of the quota.
    pub(crate) limit: u64,
    /// The first cell and the size of the window.
    pub(crate) from: u8,
    pub(crate) size: u8,
    /// So many multiplications are made before the calls.
    pub(crate) before: u16,
}

/// What a pile shows: its first cell in the bank, how many cells, and the allowance.
#[derive(Clone, Copy)]
pub(crate) struct View {
    from: usize,
    pub(crate) cells: usize,
    pub(crate) left: u64,
}

impl View {
    // Refuses the number of a cell that is not there.
    fn check_cell(self, cell: u8) -> Result<(), Refused> {
        if usize::from(cell) >= self.cells {
            return Err(Refused(NO_SUCH_CELL, u64::from(cell)));
        }
        Ok(())
    }

    // Where a cell lies in the bank.
    fn place(self, cell: u8) -> usize {
        self.from.saturating_add(usize::from(cell))
    }
}

/// A pile by the rules; the layers that are on it are listed from the uppermost down.
#[derive(Drop)]
pub(crate) struct Model<'a> {
    pub(crate) rule: Rule,
    pub(crate) setting: Setting,
    pub(crate) layers: &'a [Layer],
    cells: usize,
    held: [Option<u64>; 256],
    left: u64,
    used: u64,
    records: ArrayVec<Record, MOST_RECORDS>,
    bottom: ArrayVec<Record, MOST_KEPT>,
}

// The same multiplication, of cells so much further on.
fn shifted(record: Record, shift: u8) -> Record {
    Record {
        to: record.to.saturating_add(shift),
        a: record.a.saturating_add(shift),
        b: record.b.saturating_add(shift),
    }
}

impl<'a> Model<'a> {
    /// A new pile over an empty unit of so many cells.
    pub(crate) fn new(rule: Rule, setting: Setting, layers: &'a [Layer], cells: usize) -> Self {
        Model {
            rule,
            setting,
            layers,
            cells,
            held: [None; 256],
            left: setting.allowance,
            used: 0,
            records: ArrayVec::new(),
            bottom: ArrayVec::new(),
        }
    }

    /// Takes off the uppermost layer.
    pub(crate) fn take_off(&mut self) {
        self.layers = self.layers.get(1..).unwrap_or(&[]);
    }

    /// What the pile shows.
    pub(crate) fn view(&self) -> View {
        let mut view = View {
            from: 0,
            cells: self.cells,
            left: self.left,
        };
        for layer in self.layers {
            match layer {
                Layer::Quota => {
                    view.left = view.left.min(self.setting.limit.saturating_sub(self.used));
                }
                Layer::Window => {
                    view.from = usize::from(self.setting.from);
                    view.cells = view
                        .cells
                        .saturating_sub(view.from)
                        .min(usize::from(self.setting.size));
                }
                Layer::RunSheet => {
                    let places = self.records.remaining_capacity();
                    view.left = view.left.min(places as u64);
                }
            }
        }
        view
    }

    /// The records of the run sheet.
    pub(crate) fn records(&self) -> &[Record] {
        self.records.as_slice()
    }

    /// The records of the unit at the bottom.
    pub(crate) fn bottom_records(&self) -> &[Record] {
        self.bottom.as_slice()
    }

    /// What a cell of the view holds.
    pub(crate) fn held(&self, view: View, cell: u8) -> Option<u64> {
        self.held.get(view.place(cell)).copied().flatten()
    }

    fn put(&mut self, view: View, cell: u8, value: u64) {
        if let Some(held) = self.held.get_mut(view.place(cell)) {
            *held = Some(value);
        }
    }

    fn load(&mut self, cell: u8, value: u64) -> Result<(), Refused> {
        let view = self.view();
        view.check_cell(cell)?;
        if !self.rule.is_native(value) {
            return Err(Refused(NOT_NATIVE, 0));
        }
        self.put(view, cell, value);
        Ok(())
    }

    fn read(&self, cell: u8) -> Result<u64, Refused> {
        let view = self.view();
        view.check_cell(cell)?;
        self.held(view, cell)
            .ok_or(Refused(CELL_EMPTY, u64::from(cell)))
    }

    // The layers that are on count or record a multiplication, from the uppermost down, and then the unit at the bottom.
    fn pass(&mut self, record: Record) {
        let mut record = record;
        let layers = self.layers;
        for layer in layers {
            match layer {
                Layer::Quota => self.used = self.used.saturating_add(1),
                Layer::Window => record = shifted(record, self.setting.from),
                Layer::RunSheet => {
                    let _ = self.records.try_push(record);
                }
            }
        }
        let _ = self.bottom.try_push(record);
    }

    fn multiply(&mut self, record: Record) -> Result<(), Refused> {
        let view = self.view();
        for cell in [record.to, record.a, record.b] {
            view.check_cell(cell)?;
        }
        let x = self.read(record.a)?;
        let y = self.read(record.b)?;
        if view.left == 0 {
            return Err(Refused(ALLOWANCE_SPENT, 0));
        }
        self.put(view, record.to, self.rule.product(x, y));
        self.left = self.left.saturating_sub(1);
        self.pass(record);
        Ok(())
    }

    // What the rules say of a run before its first multiplication.
    fn check_run(&self, plan: KnownPlan, base: u64) -> Result<(), Refused> {
        let view = self.view();
        if !self.rule.is_native(base) {
            return Err(Refused(NOT_NATIVE, 0));
        }
        if plan.need > view.cells {
            return Err(Refused(NEED_ABOVE, plan.need as u64));
        }
        let length = plan.steps.len() as u64;
        if view.left < length {
            return Err(Refused(ALLOWANCE_BELOW, length));
        }
        Ok(())
    }

    // The base goes into cell 0, and each step's product into the cell that the supplied placing gives it.
    fn run(&mut self, plan: KnownPlan, base: u64) -> Result<u64, Refused> {
        self.check_run(plan, base)?;
        self.load(0, base)?;
        let places = places_of(plan);
        let mut last = 0;
        for (step, to) in plan.steps.iter().zip(places.iter().skip(1)) {
            self.multiply(Record {
                to: *to,
                a: cell_at(&places, step.j),
                b: cell_at(&places, step.k),
            })?;
            last = *to;
        }
        self.read(last)
    }

    /// Makes a call; answers the value that is handed out, if one is.
    pub(crate) fn make(&mut self, call: Call) -> Result<Option<u64>, Refused> {
        match call {
            Call::Load(cell, sample) => {
                self.load(cell, sample.of(self.rule))?;
                Ok(None)
            }
            Call::Read(cell) => Ok(Some(self.read(cell)?)),
            Call::Multiply(to, a, b) => {
                self.multiply(Record { to, a, b })?;
                Ok(None)
            }
            Call::Run(plan, sample) => Ok(Some(self.run(plan, sample.of(self.rule))?)),
        }
    }
}

fn cell_at(places: &[u8; MOST_VALUES], i: u16) -> u8 {
    places.get(usize::from(i)).copied().unwrap_or(0)
}

// The supplied placing of a plan, whose cells the rules leave open.
fn places_of(known: KnownPlan) -> [u8; MOST_VALUES] {
    let mut places = [0u8; MOST_VALUES];
    if let Ok(plan) = known.plan() {
        let _ = place(&plan, 255, &mut places);
    }
    places
}
