// From a draft to a site: a small house is entered, its draft is sealed, and it is looked at as a site for each charge
// kind. The folder refused/ has edits of this file that the compiler must refuse: a sealed draft cannot be changed, and
// an unsealed one is no site.
use anyhow::anyhow;
use subject::refusal::Refusal;
use subject::site::Site;
use survey::draft::Draft;
use survey::entry::WayEntry;
use survey::sealed::Sealed;
use survey::view::{DisturbanceView, MoneyView};

// Three places, of which the middle one can have a repeater, and two ways.
fn enter(draft: &mut Draft) -> Result<(), Refusal> {
    draft.add_place(None)?;
    draft.add_place(Some(0))?;
    draft.add_place(None)?;
    draft.add_way(WayEntry {
        from: 0,
        to: 1,
        letter: 'U',
        grade: 3,
        metres: 100,
        price: 900,
    })?;
    draft.add_way(WayEntry {
        from: 1,
        to: 2,
        letter: 'F',
        grade: 5,
        metres: 26,
        price: 400,
    })?;
    draft.reprice(1, 350)
}

fn price_of(survey: &Sealed, way: usize) -> Option<u64> {
    Some(MoneyView::over(survey).way(way)?.charge.cents)
}

fn loss_of(survey: &Sealed, way: usize) -> Option<u16> {
    Some(DisturbanceView::over(survey).way(way)?.loss)
}

pub fn from_draft_to_site(rt: &HostRuntime) -> anyhow::Result<()> {
    let mut draft = Draft::new(rt.alloc())?;
    let entered = enter(&mut draft).is_ok();
    let survey = draft.seal();
    let places = survey.places();
    let ways = survey.ways();
    let (Some(price), Some(loss)) = (price_of(&survey, 1), loss_of(&survey, 1)) else {
        return Err(anyhow!("way 1 is not there"));
    };
    println!(rt;
        "entered {entered}: {places} places and {ways} ways; way 1 costs {price} cents and loses {loss} tenths"
    )?;
    Ok(())
}
