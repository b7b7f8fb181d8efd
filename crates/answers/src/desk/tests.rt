use super::answer;
use job::list::{Answer, Call, Entry};
use job::replay::replay_owned;
use job::script::{Script, read_script};
use relays::replay_owned_for_money;
use search::owned::OwnedRows;
use sheet::print::survey_in;
use std::io;
use std::io::Write;
use std::test::Fail;
use subject::money::Money;
use subject::run::Request;
use survey::view::MoneyView;
use tree_queue::heap::Heap;
use tree_queue::row::blank_rows;

// The house of docs/SURVEY-FILE.md.
const HOUSE: [u8; 88] = [
    0x01, 0, 2, 0, 1, //
    0x02, 0, 0, //
    0x02, 0, 4, 0, 0, 0x07, 0xd0, //
    0x02, 0, 4, 0, 0, 0x01, 0xf4, //
    0x02, 0, 0, //
    0x03, 0, 12, 0, 0, 0, 1, b'U', 1, 0, 10, 0, 0, 0x01, 0x2c, //
    0x03, 0, 12, 0, 1, 0, 3, b'U', 1, 0, 10, 0, 0, 0x01, 0x2c, //
    0x03, 0, 12, 0, 1, 0, 2, b'U', 7, 0, 5, 0, 0, 0, 0xc8, //
    0x03, 0, 12, 0, 2, 0, 1, b'U', 7, 0, 5, 0, 0, 0, 0xc8, //
    0x04, 0, 0,
];

const CALLS: &[u8] =
    b"close 2\nplan 0 3 35\nclose 2\nplan 3 0 35\nreopen 2\nreopen 2\nclose 9\nplan 0 3 35\n";

const ANSWERS: &[u8] =
    b"CLOSED\nPLANNED 2 STEPS TOTAL 2600\nREFUSED 12\nREFUSED 17\nREOPENED\nREFUSED 13\nREFUSED 11\n\
RUN 0 3 35\n0 0 1 22 -\n2 1 2 33 R\n3 2 1 11 -\n1 1 3 33 -\nTOTAL 1500\n";

const UNREAD: &[u8] =
    b"line 1 cannot be read: it is not \"close W\", \"reopen W\" or \"plan START END BOUND\"; \
nothing was tried\n";

// What is written for a survey file and a text of calls.
fn written(rt: &HostRuntime, file: &[u8], text: &[u8]) -> Result<Vec<u8>, Fail> {
    let mut out = Vec::new(rt.alloc());
    answer(rt.alloc(), file, text, &mut out)?;
    Ok(out)
}

// A line for each listed call, and then the sheet of the plan behind them, over all that is open by then.
#[test]
fn calls_are_answered(rt: HostRuntime) -> Result<(), Fail> {
    let out = written(&rt, &HOUSE, CALLS)?;
    assert_eq!(rt; out.as_slice(), ANSWERS);
    Ok(())
}

// The last plan is over the ways that are open after the listed calls, or it is refused by its number alone.
#[test]
fn the_last_plan_is_answered(rt: HostRuntime) -> Result<(), Fail> {
    let around = written(&rt, &HOUSE, b"close 2\nplan 0 3 35")?;
    assert_eq!(rt;
        around.as_slice(),
        b"CLOSED\nRUN 0 3 35\n0 0 1 22 R\n1 1 3 22 -\nTOTAL 2600\n".as_slice()
    );
    let none = written(&rt, &HOUSE, b"close 1\nplan 0 3 35\n")?;
    assert_eq!(rt; none.as_slice(), b"CLOSED\nREFUSED 17\n".as_slice());
    let nowhere = written(&rt, &HOUSE, b"plan 0 4 35\n")?;
    assert_eq!(rt; nowhere.as_slice(), b"REFUSED 14\n".as_slice());
    let wide = written(&rt, &HOUSE, b"plan 0 3 1001\n")?;
    assert_eq!(rt; wide.as_slice(), b"REFUSED 15\n".as_slice());
    Ok(())
}

// A text is read whatever its bytes: one with a line that is not UTF-8 is no script, nor is one that ends without a
// plan.
#[test]
fn a_text_is_any_bytes(rt: HostRuntime) -> Result<(), Fail> {
    let unread = written(&rt, &HOUSE, &[255, 10, 255])?;
    assert_eq!(rt; unread.as_slice(), UNREAD);
    let ended = written(&rt, &HOUSE, b"plan 0 3 35\nclose 2\n")?;
    assert_eq!(rt;
        ended.as_slice(),
        b"line 2, the last, is not a plan; nothing was tried\n".as_slice()
    );
    let empty = written(&rt, &HOUSE, b"")?;
    assert_eq!(rt;
        empty.as_slice(),
        b"the text has no line; nothing was tried\n".as_slice()
    );
    Ok(())
}

// A survey file that is cut short is refused with its byte place, and no call is looked at.
#[test]
fn a_file_is_refused(rt: HostRuntime) -> Result<(), Fail> {
    let short = written(&rt, &HOUSE[..87], &[255])?;
    assert_eq!(rt; short.as_slice(), b"REFUSED 1 85\n".as_slice());
    Ok(())
}

// A writer that counts how often it is written to.
#[derive(Drop)]
struct Counting {
    writes: usize,
}

impl Write for Counting {
    fn write(&mut self, buf: &[u8]) -> io::Result<usize> {
        self.writes = self.writes.saturating_add(1);
        Ok(buf.len())
    }

    fn flush(&mut self) -> io::Result<()> {
        Ok(())
    }
}

// A line of an answer is one write, and so are a sheet and the line of a trouble: who reads a pipe gets whole lines.
#[test]
fn a_line_is_one_write(rt: HostRuntime) -> Result<(), Fail> {
    let mut out = Counting { writes: 0 };
    assert!(rt; answer(rt.alloc(), &HOUSE, CALLS, &mut out).is_ok());
    assert_eq!(rt; out.writes, 8);
    let mut out = Counting { writes: 0 };
    assert!(rt; answer(rt.alloc(), &HOUSE, b"x", &mut out).is_ok());
    assert_eq!(rt; out.writes, 1);
    Ok(())
}

// A writer that fails behind so many bytes.
struct Narrow {
    text: Vec<u8>,
    room: usize,
}

impl Write for Narrow {
    fn write(&mut self, buf: &[u8]) -> io::Result<usize> {
        let count = buf.len().min(self.room);
        if count == 0 {
            return Err(io::Error::from(io::ErrorKind::BrokenPipe));
        }
        self.text.extend_from_slice(&buf[..count])?;
        self.room -= count;
        Ok(count)
    }

    fn flush(&mut self) -> io::Result<()> {
        Ok(())
    }
}

// Wherever a writer fails there is an error, and what was written before is the front of the whole answer.
#[test]
fn a_writer_fails(rt: HostRuntime) -> Result<(), Fail> {
    for room in 0..ANSWERS.len() {
        let text = Vec::new(rt.alloc());
        let mut out = Narrow { text, room };
        let gave = answer(rt.alloc(), &HOUSE, CALLS, &mut out);
        assert!(rt; gave.is_err());
        let Narrow { text, room: _ } = out;
        assert!(rt; ANSWERS.starts_with(text.as_slice()));
    }
    Ok(())
}

// A script is read from a text: the listed calls, and the request of its last line.
#[test]
fn a_script_is_read(rt: HostRuntime) -> Result<(), Fail> {
    let read = read_script(rt.alloc(), "close 2\nplan 0 3 35\n")?;
    let Ok(Script { entries, last }) = read else {
        return Err(Fail::from("the text is a script"));
    };
    assert_eq!(rt; entries.len(), 1);
    assert!(rt; matches!(entries[0].call, Call::Close(2)));
    assert!(rt; matches!(entries[0].answer, Answer::Untried));
    assert_eq!(rt; last.start, 0);
    assert_eq!(rt; last.end, 3);
    assert_eq!(rt; last.bound, 35);
    Ok(())
}

const AROUND: Request = Request {
    start: 0,
    end: 3,
    bound: 35,
};

const CLOSE_2: Entry<Money> = Entry {
    call: Call::Close(2),
    answer: Answer::Untried,
};

// Over rows of one's own a call and a plan behind it are tried, for money by name and over a view.
#[test]
fn calls_are_tried_over_owned_rows(rt: HostRuntime) -> Result<(), Fail> {
    let mut out = Vec::new(rt.alloc());
    let Some(survey) = survey_in(rt.alloc(), &mut out, &HOUSE)? else {
        return Err(Fail::from("the house is read"));
    };
    let mut rows = OwnedRows::blank(rt.alloc(), 144)?;
    let mut queue_rows = blank_rows(rt.alloc(), 144)?;
    let mut entries = [CLOSE_2];
    let heap = Heap::over(&mut queue_rows);
    let planned = replay_owned_for_money(
        rt.alloc(),
        &survey,
        &mut entries,
        AROUND,
        &mut rows,
        heap,
    )?;
    assert!(rt; matches!(planned, Ok(p) if p.steps == 2 && p.total.cents == 2600));
    assert!(rt; matches!(entries[0].answer, Answer::Done));
    let mut again = [CLOSE_2];
    let heap = Heap::over(&mut queue_rows);
    let view = MoneyView::over(&survey);
    let planned = replay_owned(rt.alloc(), view, &mut again, AROUND, &mut rows, heap)?;
    assert!(rt; matches!(planned, Ok(p) if p.steps == 2 && p.total.cents == 2600));
    assert!(rt; matches!(again[0].answer, Answer::Done));
    Ok(())
}
