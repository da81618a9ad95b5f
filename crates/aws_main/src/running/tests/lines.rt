//! Words that are read and others.
use super::*;

/// Lines that break one of their rules each.
const OTHER_WORDS: [&str; 18] = [
    "",
    "shelf list-titles",
    "shelf list-titles --endpoint-url http://127.0.0.1:8080 --no-sign-request",
    "shelf list-titles --no-sign-request --endpoint-url http://127.0.0.1:8080 --debug",
    "shelf list-titles --no-sign-requests --endpoint-url http://127.0.0.1:8080",
    "shelf list-titles --no-sign-request --endpoint http://127.0.0.1:8080",
    "--shelf list-titles --no-sign-request --endpoint-url http://127.0.0.1:8080",
    "shelf --list-titles --no-sign-request --endpoint-url http://127.0.0.1:8080",
    "shelf --- --no-sign-request --endpoint-url http://127.0.0.1:8080",
    "shelf list-titles --no-sign-request --endpoint-url https://127.0.0.1:8080",
    "shelf list-titles --no-sign-request --endpoint-url http://127.0.0.2:8080",
    "shelf list-titles --no-sign-request --endpoint-url http://127.0.0.1",
    "shelf list-titles --no-sign-request --endpoint-url http://127.0.0.1:",
    "shelf list-titles --no-sign-request --endpoint-url http://127.0.0.1:0",
    "shelf list-titles --no-sign-request --endpoint-url http://127.0.0.1:80",
    "shelf list-titles --no-sign-request --endpoint-url http://127.0.0.1:08080",
    "shelf list-titles --no-sign-request --endpoint-url http://127.0.0.1:65536",
    "shelf list-titles --no-sign-request --endpoint-url http://127.0.0.1:8080/",
];

#[test]
fn words_that_are_not_built(rt: HostRuntime) -> Result<(), Fail> {
    for line in OTHER_WORDS {
        let outside = service(rt.alloc(), MODEL, TITLES)?;
        let due = refused(255, NOT_BUILT, None);
        check(&rt, rt.alloc(), line, outside, &due)?;
    }
    Ok(())
}

/// Services and operations that no model has, with what is said. Every word is plain that is no
/// option.
const UNKNOWN_NAMES: [(&str, &str); 10] = [
    ("ghosts list", "ghosts"),
    ("Shelf list-titles", "Shelf"),
    (" list-titles", ""),
    ("-- list-titles", "--"),
    ("-shelf list-titles", "-shelf"),
    (". list-titles", "."),
    ("shelf/2024-05-01 list-titles", "shelf/2024-05-01"),
    ("shelf ListTitles", "ListTitles"),
    ("shelf --", "--"),
    ("shelf ", ""),
];

#[test]
fn names_that_no_model_has(rt: HostRuntime) -> Result<(), Fail> {
    for (words, name) in UNKNOWN_NAMES {
        let line = format!(in rt.alloc();
            "{words} --no-sign-request --endpoint-url http://127.0.0.1:8080"
        )?;
        let err = format!(in rt.alloc();
            "usage: aws [settings] SERVICE OPERATION [arguments]\naws: error: Invalid choice: '{name}'\n"
        )?;
        let outside = service(rt.alloc(), MODEL, TITLES)?;
        let due = refused(2, err.as_str(), None);
        check(&rt, rt.alloc(), line.as_str(), outside, &due)?;
    }
    Ok(())
}
