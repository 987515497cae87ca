//! Tables of inputs with what they must be answered.
use banks::CountsBank;
use kinds::{Count, Kind};
use methods::{MOST_BYTES, Method, respond};
use plain_numbers::{Refused, steps};
use plans::{MOST_STEPS, NO_STEP, Plan, Step};
use power_tree::PARENTS;
use runs::run;
use sheets::LINE_BYTES;
use units::Unit;

// A line, what the plan program answers it with, and what it is a case of.
type Row = (&'static [u8], &'static [u8], &'static str);

// Whether the plan program answers a line so.
fn answers(line: &[u8], expected: &[u8]) -> bool {
    let mut out = [0u8; MOST_BYTES];
    match respond(line, &mut out) {
        Ok(size) => out.get(..size) == Some(expected),
        Err(_) => false,
    }
}

const REFUSED_LINES: [Row; 8] = [
    (b"", b"   4   1\n", "an empty input"),
    (b"   1   0                 23", b"   4   1\n", "no newline"),
    (
        b"   1   0                 23 ",
        b"   4   1\n",
        "a blank for the newline",
    ),
    (
        b"   1   0                 23\n\n",
        b"   4   1\n",
        "a longer input",
    ),
    (
        b"   1   0                023\n",
        b"   5   1\n",
        "a leading zero",
    ),
    (
        b"   1   0                23 \n",
        b"   5   1\n",
        "a blank after the digits",
    ),
    (
        b"   1                     23\n",
        b"   5   1\n",
        "an empty field",
    ),
    (b"  +1   0                 23\n", b"   5   1\n", "a sign"),
];

#[test]
fn refuses_lines(rt: HostRuntime) {
    for (line, expected, what) in REFUSED_LINES {
        assert!(rt; answers(line, expected), "{what}");
    }
}

const REFUSED_REQUESTS: [Row; 11] = [
    (
        b"   1   0                  0\n",
        b"   1   0\n",
        "exponent 0",
    ),
    (b"   1   09223372036854775808\n", b"   1   0\n", "2^63"),
    (b"   9   90000000000000000000\n", b"   5   1\n", "zeros"),
    (
        b"   9   99999999999999999999\n",
        b"   1   0\n",
        "10^19 - 1, before the method",
    ),
    (b"   0   0                 23\n", b"   2   0\n", "method 0"),
    (b"   6   0                 23\n", b"   2   0\n", "method 6"),
    (
        b"   1   1                 23\n",
        b"   2   0\n",
        "a width where none belongs",
    ),
    (
        b"   4   0                 23\n",
        b"   2   0\n",
        "digits without a width",
    ),
    (
        b"   4   6                 23\n",
        b"   2   0\n",
        "digits of 6 bits",
    ),
    (
        b"   3   0         4294967296\n",
        b"   2   0\n",
        "factor above its limit",
    ),
    (
        b"   5   0               1025\n",
        b"   2   0\n",
        "tree above its limit",
    ),
];

#[test]
fn refuses_requests(rt: HostRuntime) {
    for (line, expected, what) in REFUSED_REQUESTS {
        assert!(rt; answers(line, expected), "{what}");
    }
}

const SHEETS: [Row; 3] = [
    (b"   1   0                  1\n", b"", "the plan of 1"),
    (
        b"   2   0                  2\n",
        b"   1   0   0                  2\n",
        "the plan of 2",
    ),
    (
        b"   5   0                  3\n",
        b"   1   0   0                  2\n   2   1   0                  3\n",
        "the plan of 3",
    ),
];

#[test]
fn prints_sheets(rt: HostRuntime) {
    for (line, expected, what) in SHEETS {
        assert!(rt; answers(line, expected), "{what}");
    }
}

// Whether the plan program answers a line with a sheet of so many lines, of which this is the last.
fn ends(line: &[u8], lines: usize, last: &[u8]) -> bool {
    let mut out = [0u8; MOST_BYTES];
    let Ok(size) = respond(line, &mut out) else {
        return false;
    };
    let sheet = out.get(..size).unwrap_or(&[]);
    sheet.len() == lines.saturating_mul(LINE_BYTES) && sheet.ends_with(last)
}

// 2^63 - 1 has 63 one bits, so either binary plan has 124 steps.
#[test]
fn plans_the_largest_exponent(rt: HostRuntime) {
    assert!(rt;
        ends(
            b"   1   09223372036854775807\n",
            124,
            b" 124 123   09223372036854775807\n",
        )
    );
    assert!(rt;
        ends(
            b"   2   09223372036854775807\n",
            124,
            b" 124 123 1229223372036854775807\n",
        )
    );
}

// So many steps, 1 2 3 up to one more than their number.
fn counting<const N: usize>() -> [Step; N] {
    let mut steps = [NO_STEP; N];
    for (step, j) in steps.iter_mut().zip(0u16..) {
        let value = u64::from(j) + 2;
        *step = Step { j, k: 0, value };
    }
    steps
}

// Why the steps are refused as a plan of n, if they are.
fn refusal(n: u64, steps: &[Step]) -> Result<(), Refused> {
    let mut plan = Plan::one();
    plan.admit(n, steps)?;
    Ok(())
}

#[test]
fn admits_up_to_128_steps(rt: HostRuntime) {
    let mut plan = Plan::one();
    let (kept, refused) = (counting::<128>(), counting::<129>());
    assert_eq!(rt; plan.admit(129, &kept).map_err(Refused::from), Ok(()));
    assert_eq!(rt;
        plan.admit(130, &refused).map_err(Refused::from),
        Err(Refused(3, 129))
    );
}

// The steps 1 2 3 4 7 14, and then 23 from a_j and a_k.
fn steps_to_23(j: u16, k: u16) -> [Step; 6] {
    steps![
        (0, 0, 2),
        (1, 0, 3),
        (2, 0, 4),
        (3, 2, 7),
        (4, 4, 14),
        (j, k, 23)
    ]
}

// 1 2 3 4 7 14 23: no pair makes 23.
#[test]
fn refuses_a_value_that_is_no_sum(rt: HostRuntime) {
    assert_eq!(rt; refusal(23, &steps_to_23(5, 4)), Err(Refused(8, 6)));
}

// 1 2 3 4 7 14 23: none of the 21 pairs makes 23.
#[test]
fn refuses_each_pair_that_does_not_make_the_value(rt: HostRuntime) {
    for j in 0..6u16 {
        for k in 0..=j {
            assert_eq!(rt; refusal(23, &steps_to_23(j, k)), Err(Refused(8, 6)));
        }
    }
}

// Plans 23 by the power tree, 1 2 3 5 10 13 23, and raises the count 1 to it on the bank.
fn raise_to_23(bank: &mut CountsBank) -> Result<u64, Refused> {
    let mut table = [NO_STEP; MOST_STEPS];
    let mut parents = [0u16; PARENTS];
    let length = Method::Tree.plan(23, &mut table, &mut parents)?;
    let plan = Plan::new(23, &table[..length])?;
    let raised = run(bank, &plan, Count::from(1))?;
    Ok(u64::from(raised.value))
}

// The plan has 6 steps: an allowance of 6 is spent.
#[test]
fn runs_on_an_allowance_of_the_length(rt: HostRuntime) {
    let mut bank = CountsBank::new(6);
    assert_eq!(rt; raise_to_23(&mut bank), Ok(23), "the power");
    assert_eq!(rt; bank.allowance(), 0, "the allowance");
}

// An allowance of 5 is refused before anything is loaded.
#[test]
fn refuses_a_run_beyond_the_allowance(rt: HostRuntime) {
    let mut bank = CountsBank::new(5);
    assert_eq!(rt; raise_to_23(&mut bank), Err(Refused(24, 6)), "the run");
    assert_eq!(rt; bank.allowance(), 5, "the allowance");
    let held = bank.read(0).map_err(Refused::from);
    assert_eq!(rt; held, Err(Refused(21, 0)), "cell 0");
}
