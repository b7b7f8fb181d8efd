use crate::answer::{Answer, Outcome};
use crate::args::PlanOptions;
use crate::calls::read_calls;
use crate::input::{NamedSurvey, Unread, is_survey_file, read_survey};
use crate::kind::Kind;
use crate::pack::{packed, shown};
use crate::place::place_of_word;
use crate::plan::plan;
use crate::steps::{NoStep, read_steps};
use job::list::Call;
use std::test::Fail;
use subject::refusal::Refusal;
use subject::run::{Request, Step};

const HOUSE: &[u8] = b"place,office\nplace,cupboard,2000\nplace,landing,500\nplace,floor 3\n\
way,office,cupboard,U,10,300,1\nway,cupboard,floor 3,U,10,300,1\n\
way,cupboard,landing,U,5,200,7\nway,landing,cupboard,U,5,200,7\n";

fn house(rt: &HostRuntime) -> Result<NamedSurvey, Fail> {
    match read_survey(rt.alloc(), HOUSE)? {
        Ok(input) => Ok(input),
        Err(_) => Err(Fail::from("the house is read")),
    }
}

#[test]
fn a_survey_file_is_told_from_a_text(rt: HostRuntime) -> Result<(), Fail> {
    assert!(rt; is_survey_file(&[1, 0, 2, 0, 1]));
    assert!(rt; !is_survey_file(&[1, 0]));
    assert!(rt; !is_survey_file(b"place,1,0,2\n"));
    Ok(())
}

#[test]
fn both_forms_of_a_survey_are_read(rt: HostRuntime) -> Result<(), Fail> {
    let alloc = rt.alloc();
    let input = house(&rt)?;
    let file = packed(alloc, &input.survey)?;
    let again = match read_survey(alloc, &file)? {
        Ok(again) => again,
        Err(_) => return Err(Fail::from("the file is read")),
    };
    assert_eq!(rt; again.survey.all_ways(), input.survey.all_ways());
    assert_eq!(rt; place_of_word(&again.names, "3"), Some(3));
    assert_eq!(rt; place_of_word(&again.names, "office"), None);
    let text = shown(alloc, &input)?;
    assert!(rt; text.ends_with(b"way,landing,cupboard,U,5,200,7\n"));
    Ok(())
}

#[test]
fn bytes_that_are_no_survey_are_told(rt: HostRuntime) -> Result<(), Fail> {
    let alloc = rt.alloc();
    match read_survey(alloc, &[1, 0, 2, 0, 1, 2])? {
        Err(Unread::File(fault)) => {
            assert_eq!(rt; fault.refusal, Refusal::CutShort);
            assert_eq!(rt; fault.place, 5);
        }
        _ => return Err(Fail::from("a file that is cut short is refused")),
    }
    match read_survey(alloc, b"place,a\nfloor,b\n")? {
        Err(unread) => {
            let answer = unread.answer(alloc, "a.csv")?;
            assert_eq!(rt; answer.status(), 1);
            assert_eq!(rt;
                answer.text.as_slice(),
                b"a.csv: line 2: the row begins with \"floor\", not with place or way\n".as_slice()
            );
        }
        _ => return Err(Fail::from("a text with a trouble is none")),
    }
    Ok(())
}

#[test]
fn a_place_is_named_or_numbered(rt: HostRuntime) -> Result<(), Fail> {
    let input = house(&rt)?;
    assert_eq!(rt; place_of_word(&input.names, "floor 3"), Some(3));
    assert_eq!(rt; place_of_word(&input.names, "03"), Some(3));
    assert_eq!(rt; place_of_word(&input.names, "77"), Some(77));
    assert_eq!(rt; place_of_word(&input.names, "+3"), None);
    assert_eq!(rt; place_of_word(&input.names, "99999999999999999999"), None);
    Ok(())
}

#[test]
fn steps_are_read(rt: HostRuntime) -> Result<(), Fail> {
    let alloc = rt.alloc();
    let steps = read_steps(alloc, b"# by hand\n0 -\r\n\n12 R")?;
    match steps {
        Ok(steps) => {
            let drawn = [
                Step {
                    way: 0,
                    mark: false,
                },
                Step {
                    way: 12,
                    mark: true,
                },
            ];
            assert_eq!(rt; steps.as_slice(), drawn.as_slice());
        }
        Err(_) => return Err(Fail::from("the steps are read")),
    }
    for text in [b"0 -\n2  R\n".as_slice(), b"\n02 R", b"0 -\n2 r", b"\n2"] {
        let read = read_steps(alloc, text)?;
        assert!(rt; matches!(read, Err(NoStep { line: 2 })));
    }
    Ok(())
}

#[test]
fn calls_are_read(rt: HostRuntime) -> Result<(), Fail> {
    let alloc = rt.alloc();
    let input = house(&rt)?;
    match read_calls(alloc, &input.names, b"close 2\nplan \"floor 3\" 0 35\n")? {
        Ok(script) => {
            assert_eq!(rt; script.entries.len(), 1);
            assert!(rt; matches!(script.entries[0].call, Call::Close(2)));
            assert_eq!(rt; script.last.start, 3);
            assert_eq!(rt; script.last.end, 0);
            assert_eq!(rt; script.last.bound, 35);
        }
        Err(_) => return Err(Fail::from("the calls are read")),
    }
    let read = read_calls(alloc, &input.names, b"close 2\n\nplan floor 3 35\n")?;
    match read {
        Err(trouble) => {
            let text = format!(in alloc; "{trouble}")?;
            assert!(rt; text.as_str() == "line 3: there is no place \"floor\"");
        }
        Ok(_) => return Err(Fail::from("there is no place of that name")),
    }
    Ok(())
}

#[test]
fn a_refusal_is_told_from_a_sheet(rt: HostRuntime) -> Result<(), Fail> {
    let alloc = rt.alloc();
    let cases = [
        (b"RUN 0 0 1\nTOTAL 0\n".as_slice(), Outcome::Answered),
        (b"REFUSED 17\n", Outcome::Refused),
        (b"REFUSED 12\nRUN 0 0 1\nTOTAL 0\n", Outcome::Answered),
        (b"CLOSED\nREFUSED 14\n", Outcome::Refused),
        (b"", Outcome::Answered),
    ];
    for (text, outcome) in cases {
        let answer = Answer::of_text(text.to_vec(alloc)?);
        assert_eq!(rt; answer.outcome, outcome);
    }
    Ok(())
}

#[test]
fn a_plan_is_listed(rt: HostRuntime) -> Result<(), Fail> {
    let input = house(&rt)?;
    let request = Request {
        start: 0,
        end: 3,
        bound: 35,
    };
    let options = PlanOptions {
        kind: Kind::Disturbance,
        has_names: true,
    };
    let answer = plan(rt.alloc(), &input, request, options)?;
    assert_eq!(rt; answer.status(), 0);
    assert_eq!(rt;
        answer.text.as_slice(),
        b"RUN 0 3 35\n0 0 1 22 R\n1 1 3 22 -\nTOTAL 2600\nGRADE 1\n\n\
FROM      TO        CABLE  METRES  LOSS  REPEATER\n\
office    cupboard  U          10    22  R\n\
cupboard  floor 3   U          10    22  -\n"
            .as_slice()
    );
    Ok(())
}
