//! Requests on a card of each kind, accepted and refused, with what must come of them.
use crate::cards::{CardError, fit_to_card};
use crate::request::{CardKind, Request};
use fitting::Tables;
use jobs::Stage;
use std::test::Fail;

// The sheet of the plan 1 2 3.
const SHEET: &[u8] = b"   1   0   0                  2\n   2   1   0                  3\n";

// The plan 1 2 3 on a card of 2 cells with 5 multiplications.
fn request(kind: CardKind, modulus: u64, base: u64) -> Request {
    Request {
        exponent: 3,
        kind,
        modulus,
        cells: 2,
        allowance: 5,
        base,
    }
}

// Whether the request gives this power, with 3 multiplications left.
fn gives(request: &Request, power: u64) -> bool {
    match fit_to_card(request, SHEET, &mut Tables::new()) {
        Ok(fitted) => fitted.power == power && fitted.left == 3,
        _ => false,
    }
}

// Whether the text is refused so at the stage.
fn refused(request: &Request, text: &[u8], stage: Stage, number: u8, place: u64) -> bool {
    match fit_to_card(request, text, &mut Tables::new()) {
        Err(CardError::Refused(refusal)) => refusal.stage == stage
            && refusal.refusal.number_and_place() == (number, place),
        _ => false,
    }
}

#[test]
fn fits_each_kind(rt: HostRuntime) {
    assert!(rt; gives(&request(CardKind::Counts, 0, 7), 21), "counts");
    assert!(rt; gives(&request(CardKind::Residues, 101, 5), 24), "residues");
    assert!(rt;
        gives(&request(CardKind::Polynomials, 19, 2), 8),
        "polynomials"
    );
}

#[test]
fn refuses_with_the_stage(rt: HostRuntime) {
    let good = request(CardKind::Counts, 0, 7);
    assert!(rt;
        refused(&good, b" ", Stage::Reading, 4, 0),
        "a text of one byte"
    );
    let four = Request {
        exponent: 4,
        ..good
    };
    assert!(rt;
        refused(&four, SHEET, Stage::Admission, 10, 2),
        "a plan of another exponent"
    );
    let foreign = request(CardKind::Polynomials, 19, 16);
    assert!(rt;
        refused(&foreign, SHEET, Stage::Running, 11, 0),
        "a foreign base"
    );
    let narrow = Request { cells: 1, ..good };
    assert!(rt;
        refused(&narrow, SHEET, Stage::Running, 23, 2),
        "a card of one cell"
    );
    let poor = Request {
        allowance: 1,
        ..good
    };
    assert!(rt;
        refused(&poor, SHEET, Stage::Running, 24, 2),
        "an allowance of 1"
    );
}

#[test]
fn makes_no_card_out_of_bounds(rt: HostRuntime) -> Result<(), Fail> {
    match fit_to_card(
        &request(CardKind::Residues, 1, 0),
        SHEET,
        &mut Tables::new(),
    ) {
        Err(CardError::NoCard(refusal)) => {
            assert!(rt; refusal.number_and_place() == (12, 0));
            Ok(())
        },
        _ => Err(Fail::new("a card modulo 1")),
    }
}
