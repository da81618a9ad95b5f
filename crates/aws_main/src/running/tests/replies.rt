//! Replies, good ones and others.
use super::*;

#[test]
fn good_replies(rt: HostRuntime) -> Result<(), Fail> {
    let rows = [
        (TITLES, TITLES_OUT),
        ("HTTP/1.1 200 OK\r\nContent-Length: 2\r\n\r\n{}", ""),
        (
            "HTTP/1.1 200 OK\r\n\r\n{\"Shelf\": \"\\u00e9\", \"Other\": 1.50, \"Titles\": []}",
            "{\n    \"Titles\": [],\n    \"Shelf\": \"é\"\n}\n",
        ),
        (
            "HTTP/1.1 100 Continue\r\n\r\nHTTP/1.1 200 OK\r\ncontent-encoding: Identity\r\n\
Transfer-Encoding: chunked\r\n\r\n2\r\n{\"\r\n9\r\nOther\":1}\r\n0\r\n\r\n",
            "",
        ),
    ];
    for (reply, out) in rows {
        let due = Due {
            status: 0,
            out,
            err: "",
            sent: Some(REQUEST),
        };
        check(
            &rt,
            rt.alloc(),
            COMMAND,
            service(rt.alloc(), MODEL, reply)?,
            &due,
        )?;
    }
    Ok(())
}

/// Replies of which nothing is printed.
const OTHER_REPLIES: [&str; 15] = [
    "",
    "HTTP/1.1 200 OK\r\nContent-Length: 29\r\n\r\n{\"Titles\": [\"Dune\", \"Emma\"]}",
    "HTTP/1.1 200 OK\r\nContent-Length: two\r\n\r\n{}",
    "HTTP/1.1 200 OK\r\nContent-Length: 67108865\r\n\r\n{}",
    "HTTP/1.1 201 Created\r\nContent-Length: 2\r\n\r\n{}",
    "HTTP/1.1 404 Not Found\r\nContent-Length: 2\r\n\r\n{}",
    "HTTP/1.1 200 OK\r\nContent-Encoding: gzip\r\n\r\n{}",
    "HTTP/1.1 204 No Content\r\n\r\n",
    "HTTP/1.1 200 OK\r\n\r\n",
    "HTTP/1.1 200 OK\r\n\r\n[]",
    "HTTP/1.1 200 OK\r\n\r\n{} {}",
    "HTTP/1.1 200 OK\r\n\r\n{\"Titles\": \"Dune\"}",
    "HTTP/1.1 200 OK\r\n\r\n{\"Titles\": [\"Dune\", 1]}",
    "HTTP/1.1 200 OK\r\n\r\n{\"Titles\": null}",
    "HTTP/1.1 200 OK\r\n\r\n{\"Titles\": [], \"Shelf\": [\"A\"]}",
];

#[test]
fn replies_that_are_not_built(rt: HostRuntime) -> Result<(), Fail> {
    for reply in OTHER_REPLIES {
        let outside = service(rt.alloc(), MODEL, reply)?;
        check(
            &rt,
            rt.alloc(),
            COMMAND,
            outside,
            &refused(255, NOT_BUILT, Some(REQUEST)),
        )?;
    }
    Ok(())
}
