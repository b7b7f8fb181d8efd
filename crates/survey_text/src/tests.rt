use crate::names::{number_names, place_of};
use crate::read::read;
use crate::text::SurveyText;
use crate::write::write;
use std::alloc::{AllocError, Global};
use std::test::Fail;

const HOUSE: &str = "place,name,repeater\nplace,office\nplace,cupboard,2000\nplace,landing,0\n\
    way,office,cupboard,U,10,300,1\nway,landing,office,F,5,200,7\n";

// What a text says, written again: its survey, or its trouble in words.
fn told_again(alloc: Global, text: &[u8]) -> Result<String, AllocError> {
    match read(alloc, text)? {
        Ok(SurveyText { draft, names }) => match write(alloc, &draft.seal(), &names)? {
            Some(text) => Ok(String::from_utf8(text).unwrap_or(String::new(alloc))),
            None => String::from_str(alloc, "no lawful names"),
        },
        Err(trouble) => format!(in alloc; "{trouble}"),
    }
}

#[test]
fn typed_and_saved(rt: HostRuntime) -> Result<(), Fail> {
    let saved =
        "\u{feff}# a small house\r\n\r\nplace,name,repeater,,,,\r\nplace,office,,,,,\r\n,,,,,,\r\n\
        place,\"cupboard\",2000,,,,\r\nplace,landing,0,,,,\r\n#,,,,,,\r\n\
        way,0,cupboard,U,10,300,001\r\nway,landing,0,F,5,200,7";
    let old = "place,office\rplace,cupboard,2000\rplace,landing,0\r\
        way,office,cupboard,U,10,300,1\rway,landing,office,F,5,200,7\r";
    for text in [HOUSE, saved, old] {
        assert_eq!(rt; told_again(rt.alloc(), text.as_bytes())?.as_str(), HOUSE);
    }
    Ok(())
}

#[test]
fn nothing(rt: HostRuntime) -> Result<(), Fail> {
    for text in ["", "\n\n", "#", "place,name"] {
        assert_eq!(rt;
            told_again(rt.alloc(), text.as_bytes())?.as_str(),
            "place,name,repeater\n"
        );
    }
    Ok(())
}

#[test]
fn odd_names(rt: HostRuntime) -> Result<(), Fail> {
    let text = "place,name,repeater\nplace,name\nplace,\"a, \"\"b\"\"\"\nplace,2,0\nplace,+3\n\
        way,name,\"a, \"\"b\"\"\",S,0,0,0\nway,2,+3,S,0,0,0\n";
    assert_eq!(rt; told_again(rt.alloc(), text.as_bytes())?.as_str(), text);
    Ok(())
}

#[test]
fn troubles(rt: HostRuntime) -> Result<(), Fail> {
    let cases = [
        (
            "place,a\nfloor,b",
            "line 2: the row begins with \"floor\", not with place or way",
        ),
        (
            "place,\"a\nb\"",
            "line 1: a field holds a control character, such as a line break",
        ),
        (
            "place,a\n\n\nplace,a",
            "line 4: there is a place \"a\" already",
        ),
        (
            "place,a\r\rplace,1\r\nplace,1",
            "line 4: there is a place \"1\" already",
        ),
        (
            "place,1",
            "line 1: the name \"1\" is the number of another place",
        ),
        ("place,,5", "line 1: NAME is blank"),
        (
            "place,a,-5",
            "line 1: REPEATER is \"-5\", not a whole number",
        ),
        (
            "place,a,4294967296",
            "line 1: REPEATER is \"4294967296\", too large",
        ),
        (
            "place,a,1000001",
            "line 1: REFUSED 9: a price over 1,000,000 cents",
        ),
        (
            "place,a,,,x",
            "line 1: \"x\" stands behind REPEATER, the last field",
        ),
        (
            "way,a,b,U,1,1,1\nplace,a",
            "line 1: there is no place \"a\"",
        ),
        (
            "place,a\nway,0,1,U,1,1,1",
            "line 2: there is no place \"1\"",
        ),
        (
            "place,a\nway,a,0,U,1,1,1",
            "line 2: REFUSED 6: a way leads from a place to another",
        ),
        (
            "place,a\nplace,b\nway,a,b,UTP,1,1,1",
            "line 3: CABLE is \"UTP\", not one of the letters U, S and F",
        ),
        (
            "place,a\nplace,b\nway,a,b,X,1,1,1",
            "line 3: REFUSED 7: the cable is not U, S or F",
        ),
        (
            "place,a\nplace,b\nway,a,b,U,201,1,1",
            "line 3: REFUSED 8: over 200 metres",
        ),
        (
            "place,a\nplace,b\nway,a,b,U,1 m,1,1",
            "line 3: METRES is \"1 m\", not a whole number",
        ),
        (
            "place,a\nplace,b\nway,a,b,U,1,1,256",
            "line 3: GRADE is \"256\", too large",
        ),
        ("place,a\nplace,b\nway,a,b,U,1,1", "line 3: GRADE is blank"),
        (
            "place,a\nplace,b\nway,a,b,U,1,1,1,?",
            "line 3: \"?\" stands behind GRADE, the last field",
        ),
    ];
    for (text, wanted) in cases {
        assert_eq!(rt; told_again(rt.alloc(), text.as_bytes())?.as_str(), wanted);
    }
    let latin = told_again(rt.alloc(), b"place,K\xfcche")?;
    assert_eq!(rt; latin.as_str(), "line 1: a field is no UTF-8 text");
    Ok(())
}

#[test]
fn too_many_places(rt: HostRuntime) -> Result<(), Fail> {
    let mut text = String::new(rt.alloc());
    for number in 0..257 {
        text.push_str(format!(in rt.alloc(); "place,p{number}\n")?.as_str())?;
    }
    let wanted = "line 257: REFUSED 5: a survey has at most 256 places and 1,024 ways";
    assert_eq!(rt; told_again(rt.alloc(), text.as_bytes())?.as_str(), wanted);
    Ok(())
}

#[test]
fn numbers_as_names(rt: HostRuntime) -> Result<(), Fail> {
    let Ok(SurveyText { draft, names }) = read(rt.alloc(), HOUSE.as_bytes())? else {
        assert!(rt; false);
        return Ok(());
    };
    assert_eq!(rt; place_of(&names, b"landing"), Some(2));
    assert_eq!(rt; place_of(&names, b"01"), Some(1));
    assert_eq!(rt; place_of(&names, b"3"), None);
    let survey = draft.seal();
    let numbers = number_names(rt.alloc(), survey.places())?;
    let Some(text) = write(rt.alloc(), &survey, &numbers)? else {
        assert!(rt; false);
        return Ok(());
    };
    let wanted =
        "place,name,repeater\nplace,0\nplace,1,2000\nplace,2,0\nway,0,1,U,10,300,1\nway,2,0,F,5,200,7\n";
    assert_eq!(rt;
        String::from_utf8(text)
            .unwrap_or(String::new(rt.alloc()))
            .as_str(),
        wanted
    );
    assert!(rt; write(rt.alloc(), &survey, &names[1..])?.is_none());
    Ok(())
}
