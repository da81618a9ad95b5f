use crate::{
    Clock, Dice, DiceFault, Env, FileEnd, Files, Link, LinkFault, ListDice, MemClock, MemFiles,
    MemSink, Script, ScriptLink, Sink, SinkFault,
};
use std::alloc::Global;
use std::test::Fail;
use texts::{Bytes, List, OutOfMemory, Text};

fn numbers(alloc: Global, items: &[u64]) -> Result<List<u64>, OutOfMemory> {
    Ok(List::from_vec(Vec::from_slice(alloc, items)?))
}

#[test]
fn a_sink_keeps_what_it_takes(rt: HostRuntime) -> Result<(), Fail> {
    let mut sink = MemSink::new(rt.alloc(), numbers(rt.alloc(), &[2])?);
    assert_eq!(rt; sink.write(b"ab"), Ok(2));
    assert_eq!(rt; sink.write(b"x"), Err(SinkFault));
    assert_eq!(rt; sink.write(b"c"), Ok(1));
    assert_eq!(rt; sink.bytes().ok_or("it tells nothing")?, b"abc".as_slice());
    assert_eq!(rt; sink.faults(), 1);
    Ok(())
}

#[test]
fn words_and_moments_come_in_order(rt: HostRuntime) -> Result<(), Fail> {
    let words = List::from_vec(Vec::from_slice(rt.alloc(), &[7, 9])?);
    let mut dice = ListDice::new(rt.alloc(), words, numbers(rt.alloc(), &[2])?);
    for expected in [Ok(7), Err(DiceFault), Ok(9), Err(DiceFault)] {
        assert_eq!(rt; dice.word(), expected);
    }
    assert_eq!(rt; dice.given(), [7, 9].as_slice());
    assert_eq!(rt; dice.faults(), 2);

    let moments = List::from_vec(Vec::from_slice(rt.alloc(), &[5, 6])?);
    let mut clock = MemClock::new(rt.alloc(), moments);
    for expected in [5, 6, 6] {
        assert_eq!(rt; clock.now(), expected);
    }
    clock.pause(250);
    assert_eq!(rt;
        clock.given().ok_or("it tells nothing")?,
        [5, 6, 6].as_slice()
    );
    assert_eq!(rt; clock.pauses().ok_or("it tells nothing")?, [250].as_slice());
    assert_eq!(rt; MemClock::new(rt.alloc(), List::new(rt.alloc())).now(), 0);
    Ok(())
}

fn scripts(alloc: Global, script: Script) -> Result<List<Script>, OutOfMemory> {
    let mut scripts = List::new(alloc);
    scripts.push(script)?;
    Ok(scripts)
}

#[test]
fn a_connection_takes_what_its_script_says(rt: HostRuntime) -> Result<(), Fail> {
    let script = Script {
        refuse: None,
        stop_send: Some((3, LinkFault::Broken)),
        reply: Bytes::new(rt.alloc()),
        after: None,
    };
    let host = Text::from_str(rt.alloc(), "example.org")?;
    let mut link = ScriptLink::new(rt.alloc(), scripts(rt.alloc(), script)?, 2);
    link.connect(&host, 81)?;
    let sent = [link.send(b"ab"), link.send(b"cde"), link.send(b"de")];
    link.close();
    assert_eq!(rt; sent, [Ok(2), Ok(1), Err(LinkFault::Broken)]);
    assert_eq!(rt; link.connect(&host, 82), Err(LinkFault::Connect));
    assert_eq!(rt; link.faults(), 2);
    let told = link.connections().ok_or("it tells nothing")?;
    assert_eq!(rt; told.len(), 2);
    assert_eq!(rt; told[0].sent.as_slice(), b"abc".as_slice());
    assert_eq!(rt; told[1].fault, Some(LinkFault::Connect));
    Ok(())
}

#[test]
fn a_connection_gives_its_reply_in_pieces(rt: HostRuntime) -> Result<(), Fail> {
    let script = Script {
        refuse: None,
        stop_send: None,
        reply: Bytes::from_slice(rt.alloc(), b"abc")?,
        after: None,
    };
    let host = Text::from_str(rt.alloc(), "example.org")?;
    let mut link = ScriptLink::new(rt.alloc(), scripts(rt.alloc(), script)?, 2);
    let mut room = [0; 8];
    link.connect(&host, 81)?;
    let received = [
        link.receive(&mut room),
        link.receive(&mut room),
        link.receive(&mut room),
    ];
    link.close();
    assert_eq!(rt; received, [Ok(2), Ok(1), Ok(0)]);
    let told = link.connections().ok_or("it tells nothing")?;
    assert_eq!(rt; told.len(), 1);
    assert_eq!(rt; told[0].received.as_slice(), b"abc".as_slice());
    assert!(rt; told[0].ended);
    Ok(())
}

/// Pairs of texts.
fn pairs(alloc: Global, rows: &[(&str, &str)]) -> Result<List<(Text, Text)>, OutOfMemory> {
    let mut pairs = List::new(alloc);
    for (name, value) in rows {
        pairs.push((Text::from_str(alloc, name)?, Text::from_str(alloc, value)?))?;
    }
    Ok(pairs)
}

/// Files with these paths, each of which holds its own path.
fn files(alloc: Global, paths: &[&str]) -> Result<List<(Text, Bytes)>, OutOfMemory> {
    let mut files = List::new(alloc);
    for path in paths {
        files.push((
            Text::from_str(alloc, path)?,
            Bytes::from_slice(alloc, path.as_bytes())?,
        ))?;
    }
    Ok(files)
}

#[test]
fn files_are_listed_and_read(rt: HostRuntime) -> Result<(), Fail> {
    let held = files(rt.alloc(), &["m/b/x", "m/a", "m/b/y", "m/é", "m//z", "n"])?;
    let mut files = MemFiles::new(rt.alloc(), held, numbers(rt.alloc(), &[3])?);
    let names = files.list(rt.alloc(), &Text::from_str(rt.alloc(), "m")?)?;
    assert_eq!(rt; names.len(), 3);
    for (name, expected) in names.iter().zip(&["a", "b", "é"]) {
        assert_eq!(rt; name.as_str(), *expected);
    }
    let path = Text::from_str(rt.alloc(), "m/a")?;
    let bytes = files.read(rt.alloc(), &path, 3)?;
    assert_eq!(rt; bytes.as_slice(), b"m/a".as_slice());
    for expected in [FileEnd::Failed, FileEnd::TooLong] {
        assert!(rt; matches!(files.read(rt.alloc(), &path, 2), Err(end) if end == expected));
    }
    let missing = Text::from_str(rt.alloc(), "m/b")?;
    assert!(rt; matches!(files.read(rt.alloc(), &missing, 9), Err(FileEnd::Absent)));
    let plain = Text::from_str(rt.alloc(), "n")?;
    assert!(rt; matches!(files.list(rt.alloc(), &plain), Err(FileEnd::Absent)));
    assert_eq!(rt; files.faults(), 1);
    Ok(())
}

#[test]
fn the_first_set_variable_counts(rt: HostRuntime) -> Result<(), Fail> {
    let env = Env {
        pairs: pairs(rt.alloc(), &[("A", "1"), ("B", ""), ("A", "2"), ("B", "3")])?,
    };
    assert_eq!(rt; env.get("A").ok_or("unset")?.as_str(), "1");
    assert!(rt; env.get("B").is_none());
    assert!(rt; env.get("C").is_none());
    Ok(())
}
