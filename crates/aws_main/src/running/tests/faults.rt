//! Faults of the link, the files and standard output.
use super::*;

#[test]
fn faults_of_the_link(rt: HostRuntime) -> Result<(), Fail> {
    let rows = [
        (
            LinkFault::Connect,
            "\nCould not connect to the endpoint URL: \"http://127.0.0.1:8080/\"\n",
        ),
        (
            LinkFault::Timeout,
            "\nRead timeout on endpoint URL: \"http://127.0.0.1:8080/\"\n",
        ),
        (
            LinkFault::Broken,
            "\nConnection was closed before we received a valid response from endpoint URL: \
\"http://127.0.0.1:8080/\"\n",
        ),
    ];
    for (fault, err) in rows {
        let mut outside = service(rt.alloc(), MODEL, "")?;
        let mut scripts = List::new(rt.alloc());
        scripts.push(Script {
            refuse: None,
            stop_send: Some((10, fault)),
            reply: Bytes::from_slice(rt.alloc(), b"")?,
            after: None,
        })?;
        outside.scripts = scripts;
        let due = refused(255, err, Some("POST / HTT"));
        check(&rt, rt.alloc(), COMMAND, outside, &due)?;
    }
    Ok(())
}

#[test]
fn faults_of_files(rt: HostRuntime) -> Result<(), Fail> {
    let rows = [
        (1, "\nError reading models/shelf\n"),
        (
            2,
            "\nError reading models/shelf/2024-05-01/service-2.json\n",
        ),
    ];
    for (call, err) in rows {
        let mut outside = service(rt.alloc(), MODEL, TITLES)?;
        outside.bad_files.push(call)?;
        check(&rt, rt.alloc(), COMMAND, outside, &refused(255, err, None))?;
    }
    Ok(())
}

#[test]
fn faults_of_the_output(rt: HostRuntime) -> Result<(), Fail> {
    let mut outside = service(rt.alloc(), MODEL, TITLES)?;
    outside.bad_out.push(1)?;
    let due = refused(255, "\nError writing output\n", Some(REQUEST));
    check(&rt, rt.alloc(), COMMAND, outside, &due)?;
    Ok(())
}
