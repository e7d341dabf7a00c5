// Whole collection files: what they print, and their faults.
use collection::{Fault, FileFault, run};
use std::alloc::Global;
use std::process::Abort;
use std::test::Fail;

// The file prints just that.
fn prints(rt: &impl Abort, input: &str, expected: &str) {
    let mut output = [0u8; 65536];
    let written = run(input.as_bytes(), &mut output).written;
    assert!(rt; &output[0..written] == expected.as_bytes(), "{}", expected);
}

#[test]
fn six_vertices(rt: HostRuntime) {
    prints(
        &rt,
        "library=7\npapers=6\narc=0,2\narc=1,2\narc=1,3\narc=2,4\nend=4\nask=1,4\nask=4,1\nask=5,5\ntrace=0,3\ntrace=1,4\ntrace=5,5\nunder=1\nunder=5\nunder=0\n",
        "library=7 papers=6 arcs=4\nask=1,4 answer=yes ground=0 opened=3\nask=4,1 answer=no ground=0 opened=1\nask=5,5 answer=yes ground=1 opened=0\ntrace=0,3 length=0 path=none\ntrace=1,4 length=3 path=1,2,4\ntrace=5,5 length=1 path=5\nunder=1 count=4 list=1,2,3,4\nunder=5 count=1 list=5\nunder=0 count=3 list=0,2,4\n",
    );
}

// What stands before the questions, with its fault.
#[test]
fn faults_before_the_questions(rt: HostRuntime) {
    let table = [
        ("", "fault=10 line=1\n"),
        ("library=7", "fault=9 line=1\n"),
        ("library=07\n", "fault=9 line=1\n"),
        ("\n", "fault=9 line=1\n"),
        ("papers=6\n", "fault=10 line=1\n"),
        ("library=7\n", "fault=10 line=2\n"),
        ("library=7\nlibrary=7\n", "fault=10 line=2\n"),
        ("library=7\npapers=513\n", "fault=5 line=2\n"),
        ("library=7\npapers=512\n", "fault=10 line=3\n"),
        ("library=7\npapers=6\narc=0,6\n", "fault=2 line=3\n"),
        ("library=7\npapers=6\narc=1,1\n", "fault=3 line=3\n"),
        (
            "library=7\npapers=6\narc=1,2\narc=1,2\n",
            "fault=4 line=4\n",
        ),
        ("library=7\npapers=6\narc=1,2\nend=0\n", "fault=10 line=4\n"),
        (
            "library=7\npapers=6\narc=1,2\nask=1,2\n",
            "fault=10 line=4\n",
        ),
        (
            "library=7\npapers=6\narc=1,2\nask=1,02\n",
            "fault=9 line=4\n",
        ),
    ];
    for (input, expected) in table {
        prints(&rt, input, expected);
    }
}

// What stands among the questions, with its fault: what was printed before it stays.
#[test]
fn faults_among_the_questions(rt: HostRuntime) {
    let table = [
        (
            "library=7\npapers=0\nend=0\n",
            "library=7 papers=0 arcs=0\n",
        ),
        (
            "library=7\npapers=0\nend=0\nunder=0\n",
            "library=7 papers=0 arcs=0\nfault=2 line=4\n",
        ),
        (
            "library=7\npapers=2\nend=0\narc=0,1\n",
            "library=7 papers=2 arcs=0\nfault=10 line=4\n",
        ),
        (
            "library=7\npapers=2\nend=0\nask=0,2\n",
            "library=7 papers=2 arcs=0\nfault=2 line=4\n",
        ),
        (
            "library=7\npapers=2\nend=0\ntrace=2,0\n",
            "library=7 papers=2 arcs=0\nfault=2 line=4\n",
        ),
        (
            "library=7\npapers=2\nend=0\nunder=1",
            "library=7 papers=2 arcs=0\nfault=9 line=4\n",
        ),
        (
            "library=7\npapers=2\nend=0\nunder=1\nend=0\n",
            "library=7 papers=2 arcs=0\nunder=1 count=1 list=1\nfault=10 line=5\n",
        ),
    ];
    for (input, expected) in table {
        prints(&rt, input, expected);
    }
}

// An output of another size is refused before anything else, and stays as it was.
#[test]
fn another_output(rt: HostRuntime) {
    let mut output = [7u8; 65535];
    let finished = run(b"library=07\n", &mut output);
    assert_eq!(rt; finished.written, 0);
    assert_eq!(rt;
        finished.fault,
        Some(FileFault {
            fault: Fault::Size,
            line: 0,
        })
    );
    assert_eq!(rt; output[0], 7);
}

// Bytes past what is printed stay as they were.
#[test]
fn the_rest_of_the_output(rt: HostRuntime) {
    let mut output = [7u8; 65536];
    let finished = run(b"library=07\n", &mut output);
    assert_eq!(rt; finished.written, 15);
    assert_eq!(rt;
        finished.fault,
        Some(FileFault {
            fault: Fault::Form,
            line: 1,
        })
    );
    assert_eq!(rt; output[14], 10);
    assert_eq!(rt; output[15], 7);
}

// An input of one byte too many is not read.
#[test]
fn long_input(rt: HostRuntime) {
    let mut output = [0u8; 65536];
    let written = run(&[b'x'; 16385], &mut output).written;
    assert!(rt; &output[0..written] == b"fault=8 line=0\n".as_slice());
    let written = run(&[b'x'; 16384], &mut output).written;
    assert!(rt; &output[0..written] == b"fault=9 line=1\n".as_slice());
}

// What a fault says of itself.
#[test]
fn faults_in_words(rt: HostRuntime) -> Result<(), Fail> {
    let heap = rt.alloc();
    let form = FileFault {
        fault: Fault::Form,
        line: 1,
    };
    let text = format!(in heap; "{form}")?;
    assert!(rt; text.as_str() == "line 1: the line has no permitted form");
    let full = FileFault {
        fault: Fault::Growth(graph::Refusal::LimitReached),
        line: 2,
    };
    let text = format!(in heap; "{full}")?;
    assert!(rt; text.as_str() == "line 2: the graph is full");
    Ok(())
}

// The head of a collection of n vertices, and its arcs from 0 to each other one.
fn star(heap: Global, n: u16) -> Result<String, Fail> {
    let mut text = format!(in heap; "library=1\npapers={n}\n")?;
    for v in 1..n {
        let line = format!(in heap; "arc=0,{v}\n")?;
        text.push_str(line.as_str())?;
    }
    let arcs = n.saturating_sub(1);
    let line = format!(in heap; "end={arcs}\n")?;
    text.push_str(line.as_str())?;
    Ok(text)
}

// Answers that fill the output: each takes 1,961 bytes, so 33 of them fit behind the header and leave 64 bytes free. The next is not written, and is fault 8.
#[test]
fn full_output(rt: HostRuntime) -> Result<(), Fail> {
    let mut text = star(rt.alloc(), 512)?;
    for _ in 0..40 {
        text.push_str("under=0\n")?;
    }
    let mut output = [0u8; 65536];
    let finished = run(text.as_str().as_bytes(), &mut output);
    assert_eq!(rt;
        finished.fault,
        Some(FileFault {
            fault: Fault::Size,
            line: 548,
        })
    );
    assert_eq!(rt; finished.written, 64760);
    Ok(())
}
