use super::{answer, answer_from};
use crate::failing::Failing;
use std::alloc::{AllocError, Global};
use std::test::Fail;

// A request for a run from the place 0 to 1, and a file of these two places and a way between them.
const INPUT: [u8; 35] = [
    0, 0, 0, 1, 0, 35, 1, 0, 2, 0, 1, 2, 0, 0, 2, 0, 0, 3, 0, 12, 0, 0, 0, 1, 85, 1, 0, 10, 0, 0,
    1, 44, 4, 0, 0,
];

const SHEET: &[u8] = b"RUN 0 1 35\n0 0 1 22 -\nTOTAL 300\n";

#[test]
fn a_sheet_is_printed(rt: HostRuntime) -> Result<(), Fail> {
    let mut out = Vec::new(rt.alloc());
    assert!(rt; answer(rt.alloc(), &INPUT, &mut out).is_ok());
    assert_eq!(rt; out.as_slice(), SHEET);
    Ok(())
}

// The way loses 22, which is over the bound: no run is feasible.
#[test]
fn a_refusal_is_printed(rt: HostRuntime) -> Result<(), Fail> {
    let mut input = INPUT;
    input[5] = 21;
    let mut out = Vec::new(rt.alloc());
    assert!(rt; answer(rt.alloc(), &input, &mut out).is_ok());
    assert_eq!(rt; out.as_slice(), b"REFUSED 17\n".as_slice());
    Ok(())
}

// Wherever the writer fails, the call fails, and the front of the sheet was written.
#[test]
fn a_writer_fails(rt: HostRuntime) -> Result<(), Fail> {
    for room in 0..SHEET.len() {
        let mut out = Failing {
            taken: Vec::new(rt.alloc()),
            room,
        };
        assert!(rt; answer(rt.alloc(), &INPUT, &mut out).is_err());
        assert_eq!(rt; out.taken.as_slice(), &SHEET[..room]);
    }
    Ok(())
}

// A request for a run from the first to the last of 64 places in a row, and the file of these places, with repeaters at
// one cent each, and of the ways between, which lose 22 and are one cent each.
fn row_of_places(alloc: Global, bound: u8) -> Result<Vec<u8>, AllocError> {
    let mut input = Vec::new(alloc);
    input.extend_from_slice(&[0, 0, 0, 63, 0, bound, 1, 0, 2, 0, 1])?;
    input.extend_from_slice(&[2, 0, 4, 0, 0, 0, 1].repeat(alloc, 64)?)?;
    for place in 0..63u8 {
        input.extend_from_slice(&[3, 0, 12, 0, place, 0, place + 1, 85, 1, 0, 10, 0, 0, 0, 1])?;
    }
    input.extend_from_slice(&[4, 0, 0])?;
    Ok(input)
}

// There are rows enough for 64 places with losses of 0 to 60, and no more. Two ways lose 44, so that a repeater is hung
// after every second way, which is 31 of them.
#[test]
fn sixty_four_places_have_rows_enough(rt: HostRuntime) -> Result<(), Fail> {
    let mut out = Vec::new(rt.alloc());
    let enough = row_of_places(rt.alloc(), 60)?;
    assert!(rt; answer(rt.alloc(), &enough, &mut out).is_ok());
    assert!(rt; out.starts_with(b"RUN 0 63 60\n0 0 1 22 "));
    assert!(rt; out.ends_with(b"\nTOTAL 94\n"));
    let over = row_of_places(rt.alloc(), 61)?;
    let mut refused = Vec::new(rt.alloc());
    assert!(rt; answer(rt.alloc(), &over, &mut refused).is_ok());
    assert_eq!(rt; refused.as_slice(), b"REFUSED 16\n".as_slice());
    Ok(())
}

// A request for a run from the place 0 to 1, and the longest file: 256 places with repeaters, and 1,024 ways from 0
// to 1.
fn longest_input(alloc: Global) -> Result<Vec<u8>, AllocError> {
    let way = [3, 0, 12, 0, 0, 0, 1, 85, 1, 0, 1, 0, 0, 1, 44];
    let mut input = Vec::new(alloc);
    input.extend_from_slice(&[0, 0, 0, 1, 0, 14, 1, 0, 2, 0, 1])?;
    input.extend_from_slice(&[2, 0, 4, 0, 0, 0, 1].repeat(alloc, 256)?)?;
    input.extend_from_slice(&way.repeat(alloc, 1024)?)?;
    input.extend_from_slice(&[4, 0, 0])?;
    Ok(input)
}

// The longest file is read to its end, and is answered.
#[test]
fn the_longest_file_is_answered(rt: HostRuntime) -> Result<(), Fail> {
    let input = longest_input(rt.alloc())?;
    assert_eq!(rt; input.len(), 17166);
    let mut out = Vec::new(rt.alloc());
    assert!(rt; answer_from(rt.alloc(), &mut input.as_slice(), &mut out).is_ok());
    assert!(rt; out.starts_with(b"RUN 0 1 14\n"));
    assert!(rt; out.ends_with(b"\nTOTAL 300\n"));
    Ok(())
}

// A byte behind the longest file is met, also where more come than are read.
#[test]
fn a_byte_behind_the_longest_file_is_refused(rt: HostRuntime) -> Result<(), Fail> {
    let mut input = longest_input(rt.alloc())?;
    for more in [1, 99] {
        input.extend_from_slice(&[0].repeat(rt.alloc(), more)?)?;
        let mut out = Vec::new(rt.alloc());
        assert!(rt; answer_from(rt.alloc(), &mut input.as_slice(), &mut out).is_ok());
        assert_eq!(rt; out.as_slice(), b"REFUSED 10 17160\n".as_slice());
    }
    Ok(())
}
