ghost use Rattle.std.specs.Prelude.{◌≡◌, IfOk};
ghost use Rattle.survey.specs.Contents.{contents};
ghost use Rattle.survey.specs.Sealing.{sealed_contents};
ghost use Rattle.sample_house.specs.House.{cable, house_with, with_places, with_ways};

use anyhow::anyhow;
use std::alloc::Global;
use subject::refusal::Refusal;
use survey::draft::Draft;
use survey::entry::WayEntry;
use survey::sealed::Sealed;

// A way of unscreened cable.
fn cable(from: u16, to: u16, metres: u16, price: u32, grade: u8) -> WayEntry
    ensures { result ≡ cable from to metres price grade }
{
    WayEntry {
        from,
        to,
        letter: 'U',
        grade,
        metres,
        price,
    }
}

// Adds places by the prices of a repeater there, or blanks.
fn add_places(draft: &mut Draft, repeaters: &[Option<u32>]) -> Result<(), Refusal>
    ensures { IfOk result (λ _. contents draft.new ≡ with_places (contents draft.old) repeaters.now) }
{
    for repeater in repeaters {
        draft.add_place(*repeater)?;
    }
    Ok(())
}

// Adds ways.
fn add_ways(draft: &mut Draft, ways: &[WayEntry]) -> Result<(), Refusal>
    ensures { IfOk result (λ _. contents draft.new ≡ with_ways (contents draft.old) ways.now) }
{
    for way in ways {
        draft.add_way(*way)?;
    }
    Ok(())
}

// A refused entry as an error.
fn refused(refusal: Refusal) -> anyhow::Error {
    anyhow!("an entry of the house was refused with {refusal}")
}

/// A house of four places as a sealed survey, with the price of a repeater at the place 1 in cents, or a blank there.
///
/// The places 0, 1 and 3 are in a line, and the place 2 is beside 1. It is an error where memory is wanting, or where the
/// price is over 1,000,000 cents.
pub fn survey_of_house(alloc: Global, first: Option<u32>) -> anyhow::Result<Sealed>
    ensures { IfOk result (λ s. sealed_contents s ≡ house_with first) }
{
    let mut draft = Draft::new(alloc)?;
    add_places(&mut draft, &[None, first, Some(500), None]).map_err(refused)?;
    let ways = [
        cable(0, 1, 10, 300, 1),
        cable(1, 3, 10, 300, 1),
        cable(1, 2, 5, 200, 7),
        cable(2, 1, 5, 200, 7),
    ];
    add_ways(&mut draft, &ways).map_err(refused)?;
    Ok(draft.seal())
}

#[cfg(test)]
mod tests {
    use super::*;
    use std::test::Fail;

    #[test]
    fn the_house_is_no_error(rt: HostRuntime) -> Result<(), Fail> {
        for first in [None, Some(0), Some(2000)] {
            assert!(rt; survey_of_house(rt.alloc(), first).is_ok());
        }
        Ok(())
    }
}
