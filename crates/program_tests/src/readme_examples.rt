//! The examples that the READMEs of the crates quote, word for word.

use commands::{Indexing, SortedKeys, Task, write};
use edge::{MemShelf, MemSink, OpenGate};
use log_levels::Update;
use map_commands::{History, write_replay};
use map_replay::{Answer, Asked, Question, replay};
use options::{Bounds, Plan, Workers};
use program::{Status, run};
use std::test::Fail;

#[test]
fn commands_example(rt: HostRuntime) -> Result<(), Fail> {
    let sorted = SortedKeys {
        keys: vec![in rt.alloc(); 0, 1, 2, 10]?,
    };
    let bounds = Bounds { eps: 0, eps_rec: 0 };
    let workers = Workers { count: 1 };
    let indexing = Indexing {
        sorted,
        bounds,
        workers,
    };
    let mut sink = MemSink::new(rt.alloc(), 4096, Vec::new(rt.alloc()), 4096)?;
    write(
        &rt,
        rt.alloc(),
        Task::Build { indexing },
        &mut sink,
        &OpenGate,
    )?;
    assert!(rt; sink.bytes().starts_with(b"keys 4 distinct 4 levels 2\n"));
    Ok(())
}

#[test]
fn program_example(rt: HostRuntime) -> Result<(), Fail> {
    let mut words = Vec::new(rt.alloc());
    for word in ["pgmtool", "replay", "script"] {
        words.push(String::from_str(rt.alloc(), word)?)?;
    }
    let script = b"put 1 10\ndel 1\nget 1\n".to_vec(rt.alloc())?;
    let file = (String::from_str(rt.alloc(), "script")?, script);
    let mut files = MemShelf::new(vec![in rt.alloc(); file]?, Vec::new(rt.alloc()), 4096);
    let mut out = MemSink::new(rt.alloc(), 4096, Vec::new(rt.alloc()), 4096)?;
    let status = run(&rt, &words, &mut files, &mut out, &OpenGate);
    assert_eq!(rt; status, Status::Done);
    let text = b"updates 2\nend get 1 none\nlive 0\n";
    assert_eq!(rt; out.bytes(), text.as_slice());
    Ok(())
}

#[test]
fn map_replay_example(rt: HostRuntime) -> Result<(), Fail> {
    let updates = [Update::Put(1, 10), Update::Put(2, 20)];
    let questions = [Question::Get(1)];
    let workers = Workers { count: 1 };
    let plan = Plan {
        levels: 20,
        batch: 1,
        readers: 1,
        workers,
    };
    let left = replay(&rt, rt.alloc(), &updates, &questions, plan, &OpenGate)?;
    let answer = left.answer(Question::Get(2));
    let readers = left.readings().len();
    left.close(&rt);
    assert_eq!(rt; answer, Answer::Value(Some(20)));
    assert_eq!(rt; readers, 1);
    Ok(())
}

#[test]
fn map_commands_example(rt: HostRuntime) -> Result<(), Fail> {
    let mut sink = MemSink::new(rt.alloc(), 4096, Vec::new(rt.alloc()), 4096)?;
    let updates = vec![in rt.alloc(); Update::Put(1, 10), Update::Del(1)]?;
    let questions = vec![in rt.alloc(); Question::Get(1)]?;
    let workers = Workers { count: 1 };
    let plan = Plan {
        levels: 20,
        batch: 16,
        readers: 0,
        workers,
    };
    let history = History {
        plan,
        updates,
        questions,
        map: None,
    };
    write_replay(&rt, rt.alloc(), history, &mut sink, &OpenGate)?;
    let text = b"updates 2\nend get 1 none\nlive 0\n";
    assert_eq!(rt; sink.bytes(), text.as_slice());
    Ok(())
}
