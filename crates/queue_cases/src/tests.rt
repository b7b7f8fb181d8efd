// What a queue of each kind answers: to all lines at once, and line by line.
use crate::answer::{Answer, ask_each};
use crate::call::{Call, Line, read_lines};
use crate::kind::{KINDS, queues_over, rows_of_kinds};
use std::test::Fail;
use subject::refusal::Refusal;

fn line(call: Call) -> Line {
    Line {
        number: 1,
        call: Some(call),
    }
}

#[test]
fn each_kind_answers_all_lines(rt: HostRuntime) -> Result<(), Fail> {
    let text = "rows 2\nput 1 5\nput 0 3\nput 2 9\n\ntake\nempty\ntake\n";
    let lines = read_lines(rt.alloc(), text)?;
    for kind in KINDS {
        let answers = kind.answers(rt.alloc(), 2, &lines)?;
        let expected = [
            Some(Answer::Rows(2)),
            Some(Answer::Put(Ok(()))),
            Some(Answer::Put(Ok(()))),
            Some(Answer::Put(Err(Refusal::NoSuchCell))),
            None,
            Some(Answer::Took(Some(3))),
            Some(Answer::Emptied),
            Some(Answer::Took(None)),
        ];
        assert!(rt; answers.as_slice() == expected.as_slice());
    }
    Ok(())
}

#[test]
fn all_kinds_answer_each_line(rt: HostRuntime) -> Result<(), Fail> {
    let mut rows = rows_of_kinds(rt.alloc(), 2)?;
    let mut queues = queues_over(rt.alloc(), &mut rows)?;
    let queues = queues.as_mut_slice();
    let mut answers = [None; 2];
    ask_each(queues, &line(Call::Put(1, 5)), &mut answers);
    assert!(rt; answers == [Some(Answer::Put(Ok(()))); 2]);
    ask_each(queues, &line(Call::Take), &mut answers);
    assert!(rt; answers == [Some(Answer::Took(Some(5))); 2]);
    Ok(())
}
