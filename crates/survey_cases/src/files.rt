// Files at and past each limit.
use std::alloc::{AllocError, Global};
use subject::refusal::Fault;
use survey::draft::Draft;
use survey_file::reader::FileReader;

// What a file has: so many blank places, so many ways from place 0 to place 1, of some metres at some price, and some
// bytes behind its end.
#[derive(Clone, Copy)]
struct FileParts {
    places: usize,
    ways: usize,
    metres: u8,
    price: u32,
    behind: usize,
}

const NO_PARTS: FileParts = FileParts {
    places: 0,
    ways: 0,
    metres: 0,
    price: 0,
    behind: 0,
};

const TWO_PLACES_AND_A_WAY: FileParts = FileParts {
    places: 2,
    ways: 1,
    ..NO_PARTS
};

fn file(alloc: Global, parts: FileParts) -> Result<Vec<u8>, AllocError> {
    let [_, high, middle, low] = parts.price.to_be_bytes();
    let way = [
        3,
        0,
        12,
        0,
        0,
        0,
        1,
        83,
        0,
        0,
        parts.metres,
        0,
        high,
        middle,
        low,
    ];
    let mut bytes = Vec::new(alloc);
    bytes.extend_from_slice(&[1, 0, 2, 0, 1])?;
    bytes.extend_from_slice(&[2, 0, 0].repeat(alloc, parts.places)?)?;
    bytes.extend_from_slice(&way.repeat(alloc, parts.ways)?)?;
    bytes.extend_from_slice(&[4, 0, 0])?;
    bytes.extend_from_slice(&[0].repeat(alloc, parts.behind)?)?;
    Ok(bytes)
}

// Prints what the reader answers to a file.
fn show(
    rt: &HostRuntime,
    reader: &mut FileReader,
    name: &str,
    parts: FileParts,
) -> anyhow::Result<()> {
    let bytes = file(rt.alloc(), parts)?;
    let mut draft = Draft::new(rt.alloc())?;
    match reader.read(&bytes, &mut draft) {
        Ok(()) => {
            let places = draft.places();
            let ways = draft.ways();
            println!(rt; "{name}: {places} places, {ways} ways")?;
        }
        Err(Fault { refusal, place }) => {
            println!(rt; "{name}: refused with {refusal} at {place}")?;
        }
    }
    Ok(())
}

// Files at a limit, which are read, and files past one, which are refused.
pub fn limits(rt: &HostRuntime, reader: &mut FileReader) -> anyhow::Result<()> {
    let longest = FileParts {
        places: 256,
        ways: 1024,
        metres: 200,
        price: 1000000,
        ..NO_PARTS
    };
    let many_places = FileParts {
        places: 257,
        ..NO_PARTS
    };
    let many_ways = FileParts {
        ways: 1025,
        ..TWO_PLACES_AND_A_WAY
    };
    let no_end = FileParts {
        places: 1,
        ..TWO_PLACES_AND_A_WAY
    };
    let too_long = FileParts {
        metres: 201,
        ..TWO_PLACES_AND_A_WAY
    };
    let too_dear = FileParts {
        price: 1000001,
        ..TWO_PLACES_AND_A_WAY
    };
    let extra_byte = FileParts {
        behind: 1,
        ..TWO_PLACES_AND_A_WAY
    };
    show(rt, reader, "no places, no ways", NO_PARTS)?;
    show(rt, reader, "256 places, 1,024 ways", longest)?;
    show(rt, reader, "257 places", many_places)?;
    show(rt, reader, "1,025 ways", many_ways)?;
    show(rt, reader, "one place, a way", no_end)?;
    show(rt, reader, "201 metres", too_long)?;
    show(rt, reader, "a price of 1,000,001", too_dear)?;
    show(rt, reader, "an extra byte", extra_byte)
}
