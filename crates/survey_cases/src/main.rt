//! Surveys on examples: the file of the house on four places, whole, cut and changed; files past each limit; some
//! losses of the card; and a draft on its way to a site. The figures that are expected are in the file stdout.
#![tactic(auto)]

mod files;
mod house;
mod sealing;

use crate::files::limits;
use crate::house::{HOUSE, field_start, is_written_as};
use crate::sealing::from_draft_to_site;
use anyhow::anyhow;
use std::alloc::Global;
use subject::refusal::{Fault, Refusal};
use survey::card::loss;
use survey::draft::Draft;
use survey_file::reader::FileReader;

// How many proper fronts of the house are refused with 1, at the field that is cut.
fn fronts(reader: &mut FileReader, draft: &mut Draft) -> usize {
    (0..88)
        .filter(|count| {
            let cut = Fault {
                refusal: Refusal::CutShort,
                place: field_start(*count),
            };
            reader.read(&HOUSE[..*count], draft) == Err(cut)
        })
        .count()
}

// Each byte of the house is changed to each other byte: how many files are refused, how many are read as another
// survey, whose file is the changed one, and how many are neither.
fn changes(reader: &mut FileReader, alloc: Global) -> anyhow::Result<(usize, usize, usize)> {
    let mut refused = 0usize;
    let mut other = 0usize;
    let mut wrong = 0usize;
    for at in 0..88 {
        for by in 1..=255u8 {
            let mut file = HOUSE;
            file[at] = file[at].wrapping_add(by);
            let mut draft = Draft::new(alloc)?;
            match reader.read(&file, &mut draft) {
                Err(_) => refused = refused.saturating_add(1),
                Ok(()) => {
                    if is_written_as(draft, &file) {
                        other = other.saturating_add(1)
                    } else {
                        wrong = wrong.saturating_add(1)
                    }
                }
            }
        }
    }
    Ok((refused, other, wrong))
}

// The loss of so many metres of a cable.
fn loss_of(letter: char, metres: u16) -> anyhow::Result<u16> {
    loss(letter, metres).map_err(|_| anyhow!("a loss of the card was refused"))
}

fn main(rt: HostRuntime) -> anyhow::Result<()> {
    let alloc = rt.alloc();
    let mut reader = FileReader::new(alloc)?;
    let mut draft = Draft::new(alloc)?;
    let whole = reader.read(&HOUSE, &mut draft).is_ok();
    let places = draft.places();
    let ways = draft.ways();
    println!(rt; "the house reads: {whole}, {places} places, {ways} ways")?;
    let same = is_written_as(draft, &HOUSE);
    println!(rt; "its file is written with 88 bytes as it was read: {same}")?;
    let mut kept = Draft::new(alloc)?;
    let right = fronts(&mut reader, &mut kept);
    println!(rt; "of 88 proper fronts {right} are refused with 1 at the field that is cut")?;
    let untouched = kept.places() == 0 && kept.ways() == 0;
    println!(rt; "the draft is untouched by them: {untouched}")?;
    let (refused, other, wrong) = changes(&mut reader, alloc)?;
    let all = refused.saturating_add(other).saturating_add(wrong);
    println!(rt; "of {all} changes of one byte {wrong} read as the house")?;
    limits(&rt, &mut reader)?;
    let u = loss_of('U', 7)?;
    let f = loss_of('F', 25)?;
    let g = loss_of('F', 26)?;
    println!(rt; "U 7 m is {u}, F 25 m is {f}, F 26 m is {g}")?;
    from_draft_to_site(&rt)
}
