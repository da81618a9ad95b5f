//! Folders of models, and the versions in them.
use super::*;

/// A model in which the operation isn't built, and one that is no JSON: where one of them is taken,
/// the message tells.
const OTHER: &str = r#"{"metadata":{"protocol":"rest-json","endpointPrefix":"s"},
"operations":{"ListTitles":{"name":"ListTitles","http":{"method":"POST","requestUri":"/"},
"authtype":"none"}},"shapes":{}}"#;

const NO_JSON: &str = "{";

const BAD_JSON: &str = "\nInvalid model service-2.json: json\n";

const UNKNOWN: &str =
    "usage: aws [settings] SERVICE OPERATION [arguments]\naws: error: Invalid choice: 'shelf'\n";

/// The folders and the files in them, and what is said; nothing where the model is taken.
type Row = (
    &'static str,
    &'static [(&'static str, &'static str)],
    &'static str,
);

const ONE_FOLDER: [Row; 6] = [
    (
        "m",
        &[
            ("m/shelf/2023-01-01/service-2.json", NO_JSON),
            ("m/shelf/2024-01-01/service-2.json", MODEL),
            ("m/shelf/2025-01-01/waiters-2.json", NO_JSON),
            ("m/shelf/2023-12-31/service-2.json", OTHER),
        ],
        "",
    ),
    ("m", &[("m/shelf/service-2.json", MODEL)], UNKNOWN),
    ("m", &[("m/shelf/1/service-2.json.gz", MODEL)], UNKNOWN),
    ("m", &[("m/shelfs/1/service-2.json", MODEL)], UNKNOWN),
    ("n", &[("m/shelf/1/service-2.json", MODEL)], UNKNOWN),
    ("", &[("/shelf/1/service-2.json", MODEL)], UNKNOWN),
];

const MANY_FOLDERS: [Row; 10] = [
    (
        "m:n",
        &[
            ("m/shelf/1/service-2.json", NO_JSON),
            ("n/shelf/2/service-2.json", MODEL),
        ],
        "",
    ),
    (
        "n:m",
        &[
            ("m/shelf/1/service-2.json", NO_JSON),
            ("n/shelf/2/service-2.json", MODEL),
        ],
        "",
    ),
    (
        "m:n",
        &[
            ("m/shelf/2/service-2.json", MODEL),
            ("n/shelf/2/service-2.json", NO_JSON),
        ],
        "",
    ),
    (
        "n:m",
        &[
            ("m/shelf/2/service-2.json", MODEL),
            ("n/shelf/2/service-2.json", NO_JSON),
        ],
        BAD_JSON,
    ),
    (
        "m:n",
        &[
            ("m/shelf/1/service-2.json", NO_JSON),
            ("m/shelf/3/service-2.json", OTHER),
            ("n/shelf/2/service-2.json", NO_JSON),
        ],
        NOT_BUILT,
    ),
    (
        "gone::m:/n/:",
        &[
            ("m/books/1/service-2.json", NO_JSON),
            ("/n//shelf/1/service-2.json", MODEL),
        ],
        "",
    ),
    (
        "m:n:m",
        &[
            ("m/shelf/9/x", NO_JSON),
            ("n/shelf/10/service-2.json", NO_JSON),
            ("n/shelf/9/service-2.json", MODEL),
        ],
        "",
    ),
    (":", &[("/shelf/1/service-2.json", MODEL)], UNKNOWN),
    ("m:n", &[("o/shelf/1/service-2.json", MODEL)], UNKNOWN),
    ("m:n", &[], UNKNOWN),
];

fn check_rows(rt: &impl Abort, alloc: Global, rows: &[Row]) -> Result<(), OutOfMemory> {
    for (folders, entries, err) in rows {
        let mut outside = service(alloc, MODEL, TITLES)?;
        let mut files = List::new(alloc);
        for (path, content) in *entries {
            let content = Bytes::from_slice(alloc, content.as_bytes())?;
            files.push((Text::from_str(alloc, path)?, content))?;
        }
        outside.files = files;
        outside.folders = Text::from_str(alloc, folders)?;
        let status = if *err == UNKNOWN { 2 } else { 255 };
        let due = if err.is_empty() {
            printed()
        } else {
            refused(status, err, None)
        };
        check(rt, alloc, COMMAND, outside, &due)?;
    }
    Ok(())
}

#[test]
fn versions_in_a_folder(rt: HostRuntime) -> Result<(), Fail> {
    check_rows(&rt, rt.alloc(), &ONE_FOLDER)?;
    Ok(())
}

#[test]
fn versions_in_folders(rt: HostRuntime) -> Result<(), Fail> {
    check_rows(&rt, rt.alloc(), &MANY_FOLDERS)?;
    Ok(())
}

/// The greatest version is taken, also where its file has one byte too many.
#[test]
fn a_long_file(rt: HostRuntime) -> Result<(), Fail> {
    let mut outside = service(rt.alloc(), MODEL, TITLES)?;
    let path = Text::from_str(rt.alloc(), "models/shelf/2025-01-01/service-2.json")?;
    let blanks = Vec::from_elem(rt.alloc(), b' ', 33_554_433)?;
    outside.files.push((path, Bytes::from_vec(blanks)))?;
    let due = refused(255, "\nInvalid model service-2.json: too long\n", None);
    check(&rt, rt.alloc(), COMMAND, outside, &due)?;
    Ok(())
}
