use crate::escape::escape;
use crate::mark::Plan;
use crate::picture::picture;
use std::alloc::Global;
use std::test::Fail;
use subject::run::{Request, Step};
use survey::draft::Draft;
use survey::entry::WayEntry;
use survey::sealed::Sealed;

// A survey of two places, with a way there and another back.
fn two_places(alloc: Global, price: Option<u32>) -> Result<Sealed, Fail> {
    let mut draft = Draft::new(alloc)?;
    draft.add_place(None)?;
    draft.add_place(price)?;
    for (from, to, metres) in [(0, 1, 12), (1, 0, 34)] {
        draft.add_way(WayEntry {
            from,
            to,
            letter: 'S',
            grade: 1,
            metres,
            price: 700,
        })?;
    }
    Ok(draft.seal())
}

// How often a part is in a text.
fn count_of(text: &str, part: &str) -> usize {
    text.matches(part).count()
}

// Whether a document begins and ends as one.
fn is_whole(text: &str) -> bool {
    text.starts_with("<svg xmlns=\"http://www.w3.org/2000/svg\" ") && text.ends_with("</svg>\n")
}

// An entity is written for each of the five characters, and a character that XML does not allow is left out.
#[test]
fn a_text_is_escaped(rt: HostRuntime) -> Result<(), Fail> {
    let text = escape(rt.alloc(), "<b> & \"c\" 'd'\u{0}\u{1f}\u{fffe}\té")?;
    assert_eq!(rt;
        text.as_str(),
        "&lt;b&gt; &amp; &quot;c&quot; &#39;d&#39;\té"
    );
    Ok(())
}

// A name is in the picture as it is escaped. A place that has none is named by its number.
#[test]
fn names_are_escaped(rt: HostRuntime) -> Result<(), Fail> {
    let survey = two_places(rt.alloc(), None)?;
    let names = [String::from_str(rt.alloc(), "<b> & \"c\"")?];
    let text = picture(rt.alloc(), &survey, &names, None)?;
    assert!(rt; is_whole(text.as_str()));
    assert_eq!(rt;
        count_of(text.as_str(), " &lt;b&gt; &amp; &quot;c&quot;</text>"),
        1
    );
    assert_eq!(rt; count_of(text.as_str(), "<b>"), 0);
    assert_eq!(rt; count_of(text.as_str(), ">1</text>"), 1);
    Ok(())
}

// Both ways are drawn, and their labels are not at one point.
#[test]
fn ways_there_and_back(rt: HostRuntime) -> Result<(), Fail> {
    let survey = two_places(rt.alloc(), None)?;
    let text = picture(rt.alloc(), &survey, &[], None)?;
    assert_eq!(rt; count_of(text.as_str(), "</title>12 m S</text>"), 1);
    assert_eq!(rt; count_of(text.as_str(), "</title>34 m S</text>"), 1);
    assert_eq!(rt;
        count_of(text.as_str(), "<path class=\"way\" "),
        3,
        "two ways and the legend"
    );
    Ok(())
}

// No places are a picture too.
#[test]
fn no_places(rt: HostRuntime) -> Result<(), Fail> {
    let survey = Draft::new(rt.alloc())?.seal();
    let text = picture(rt.alloc(), &survey, &[], None)?;
    assert!(rt; is_whole(text.as_str()));
    assert_eq!(rt; count_of(text.as_str(), "Survey of 0 places and 0 ways"), 1);
    Ok(())
}

// One place: no price is written for a blank, and 0 for a repeater for nothing.
#[test]
fn a_blank_is_no_price_of_zero(rt: HostRuntime) -> Result<(), Fail> {
    for (price, times) in [(None, 0), (Some(0), 1)] {
        let mut draft = Draft::new(rt.alloc())?;
        draft.add_place(price)?;
        let text = picture(rt.alloc(), &draft.seal(), &[], None)?;
        assert!(rt; is_whole(text.as_str()));
        assert_eq!(rt; count_of(text.as_str(), ">repeater 0</text>"), times);
    }
    Ok(())
}

// A run of one way, with a repeater where it arrives.
#[test]
fn a_run_is_marked(rt: HostRuntime) -> Result<(), Fail> {
    let survey = two_places(rt.alloc(), Some(900))?;
    let request = Request {
        start: 0,
        end: 1,
        bound: 35,
    };
    let steps = [Step { way: 0, mark: true }];
    let plan = Plan {
        request,
        run: Some(&steps),
    };
    let text = picture(rt.alloc(), &survey, &[], Some(plan))?;
    assert!(rt; is_whole(text.as_str()));
    let line = "Run from 0 to 1 within 3.5 dB: 1 way, 12 m, 1 repeater<";
    assert_eq!(rt; count_of(text.as_str(), line), 1);
    assert_eq!(rt;
        count_of(text.as_str(), "<path class=\"run\" "),
        2,
        "the way and the legend"
    );
    assert_eq!(rt;
        count_of(text.as_str(), "<circle class=\"repeater\" "),
        2,
        "the place and the legend"
    );
    assert_eq!(rt; count_of(text.as_str(), ">START<"), 1);
    assert_eq!(rt; count_of(text.as_str(), ">END<"), 1);
    let none = Plan { request, run: None };
    let text = picture(rt.alloc(), &survey, &[], Some(none))?;
    assert_eq!(rt;
        count_of(text.as_str(), "No run from 0 to 1 within 3.5 dB<"),
        1
    );
    assert_eq!(rt;
        count_of(text.as_str(), "<path class=\"run\" "),
        1,
        "the legend"
    );
    Ok(())
}
