//! Models that are read, that break a rule, or whose operation can't be called.
use super::*;

/// The model with a part of its text, which stands in it, in another form.
fn changed(alloc: Global, part: &str, other: &str) -> Result<Outside, OutOfMemory> {
    let (front, rest) = MODEL.split_once(part).unwrap_or(("", ""));
    let mut text = Text::from_str(alloc, front)?;
    text.push_str(other)?;
    text.push_str(rest)?;
    service(alloc, text.as_str(), TITLES)
}

/// Runs the command over the model with each part in another form.
fn check_changed(
    rt: &impl Abort,
    alloc: Global,
    rows: &[(&str, &str)],
    due: &Due,
) -> Result<(), OutOfMemory> {
    for (part, other) in rows {
        assert!(rt; MODEL.contains(*part), "{part}");
        check(rt, alloc, COMMAND, changed(alloc, part, other)?, due)?;
    }
    Ok(())
}

/// Changes that leave the operation as it is built.
const BUILT: [(&str, &str); 7] = [
    (
        "\"protocol\":\"json\"",
        "\"protocol\":\"query\",\"protocols\":[\"query\",\"json\"]",
    ),
    (
        "\"operations\":{",
        "\"operations\":{\"listAll\":{\"name\":\"listAll\",\"http\":{\"method\":\"GET\",\"requestUri\":\"/a\"}},",
    ),
    (
        "\"input\":{\"shape\":\"Nothing\"}",
        "\"deprecated\":true,\"authtype\":\"none\"",
    ),
    (
        "\"Titles\":{\"shape\":\"Texts\"}",
        "\"Titles\":{\"shape\":\"Texts\",\"locationName\":\"Titles\"}",
    ),
    (
        "\"Text\":{\"type\":\"string\"}",
        "\"Text\":{\"type\":\"string\",\"min\":1}",
    ),
    (
        "\"Text\":{\"type\":\"string\"}",
        "\"Text\":{\"type\":\"character\",\"pattern\":\"a\"}",
    ),
    (
        "\"shapes\":{",
        "\"shapes\":{\"Tree\":{\"type\":\"list\",\"member\":{\"shape\":\"Tree\"}},",
    ),
];

#[test]
fn models_that_are_built(rt: HostRuntime) -> Result<(), Fail> {
    check_changed(&rt, rt.alloc(), &BUILT, &printed())?;
    Ok(())
}

/// Changes of which each asks for what isn't built.
const NOT_BUILT_YET: [(&str, &str); 11] = [
    ("\"protocol\":\"json\"", "\"protocol\":\"rest-json\""),
    ("\"method\":\"POST\"", "\"method\":\"GET\""),
    ("\"requestUri\":\"/\"", "\"requestUri\":\"/titles\""),
    (
        "\"input\":{\"shape\":\"Nothing\"}",
        "\"endpoint\":{\"hostPrefix\":\"data.\"}",
    ),
    (
        "\"members\":{}",
        "\"members\":{\"Shelf\":{\"shape\":\"Text\"}}",
    ),
    (
        "\"Titles\":{\"shape\":\"Texts\"}",
        "\"Titles\":{\"shape\":\"Texts\",\"locationName\":\"titles\"}",
    ),
    (
        "\"Titles\":{\"shape\":\"Texts\"}",
        "\"Titles\":{\"shape\":\"Texts\",\"location\":\"header\"}",
    ),
    (
        "\"Titles\":{\"shape\":\"Texts\"}",
        "\"Titles\":{\"shape\":\"TitlesOut\"}",
    ),
    (
        "\"Text\":{\"type\":\"string\"}",
        "\"Text\":{\"type\":\"integer\"}",
    ),
    (
        "\"Texts\":{\"type\":\"list\",\"member\":{\"shape\":\"Text\"}}",
        "\"Texts\":{\"type\":\"list\",\"member\":{\"shape\":\"Texts\"}}",
    ),
    (
        "\"Texts\":{\"type\":\"list\",\"member\":{\"shape\":\"Text\"}}",
        "\"Texts\":{\"type\":\"map\",\"key\":{\"shape\":\"Text\"},\"value\":{\"shape\":\"Text\"}}",
    ),
];

#[test]
fn models_that_are_not_built(rt: HostRuntime) -> Result<(), Fail> {
    let due = refused(255, NOT_BUILT, None);
    check_changed(&rt, rt.alloc(), &NOT_BUILT_YET, &due)?;
    Ok(())
}

/// Changes that break a rule of models, with the place.
const BAD_MODELS: [(&str, &str, &str); 9] = [
    (
        "\"output\":{\"shape\":\"TitlesOut\"}",
        "\"output\":{\"shape\":\"Gone\"}",
        "operations.ListTitles.output.shape",
    ),
    (MODEL, "[]", ""),
    ("}}}}}", "}}}}} x", "json"),
    ("\"metadata\":", "\"metadata\"", "json"),
    ("\"jsonVersion\":\"1.1\",", "", "metadata.jsonVersion"),
    (
        "\"targetPrefix\":\"Shelf_20240501\"",
        "\"targetPrefix\":null",
        "metadata.targetPrefix",
    ),
    (
        "\"operations\":{",
        "\"operations\":{\"List\":{\"name\":\"listTitles\",\"http\":{\"method\":\"GET\",\"requestUri\":\"/a\"}},",
        "operations.ListTitles.name",
    ),
    (
        "\"Titles\":{\"shape\":\"Texts\"}",
        "\"Titles\":{\"shape\":\"Missing\"}",
        "shapes.TitlesOut.members.Titles.shape",
    ),
    (
        "\"Text\":{\"type\":\"string\"}",
        "\"Text\":{\"type\":\"text\"}",
        "shapes.Text.type",
    ),
];

#[test]
fn models_that_break_a_rule(rt: HostRuntime) -> Result<(), Fail> {
    for (part, other, place) in BAD_MODELS {
        let err = format!(in rt.alloc(); "\nInvalid model service-2.json: {place}\n")?;
        let due = refused(255, err.as_str(), None);
        check_changed(&rt, rt.alloc(), &[(part, other)], &due)?;
    }
    Ok(())
}

/// Changes for which the operation can't be called, with the reason.
const NOT_ADMITTED: [(&str, &str, &str); 9] = [
    (
        "\"protocol\":\"json\"",
        "\"protocol\":\"query\"",
        "Protocol",
    ),
    (
        "\"TitlesOut\":{",
        "\"TitlesOut\":{\"eventstream\":true,",
        "Events",
    ),
    (
        "\"signatureVersion\":\"v4\"",
        "\"signatureVersion\":\"s3\"",
        "Signature",
    ),
    (
        "\"name\":\"ListTitles\"",
        "\"name\":\"ListTitles\",\"httpChecksumRequired\":true",
        "Checksum",
    ),
    (
        "\"name\":\"ListTitles\"",
        "\"name\":\"ListTitles\",\"endpointdiscovery\":{\"required\":true}",
        "Discovery",
    ),
    (
        "\"Shelf\":{\"shape\":\"Text\"}",
        "\"Shelf\":{\"shape\":\"Text\",\"jsonvalue\":true}",
        "JsonValue",
    ),
    (
        "\"TitlesOut\":{\"type\":\"structure\",\"members\":{",
        "\"Data\":{\"type\":\"blob\"},\"TitlesOut\":{\"type\":\"structure\",\"payload\":\"Data\",\"members\":{\"Data\":{\"shape\":\"Data\"},",
        "BlobOutput",
    ),
    (
        "\"members\":{}",
        "\"members\":{\"BookId\":{\"shape\":\"Text\"},\"bookId\":{\"shape\":\"Text\"}}",
        "SameArgument",
    ),
    (
        "\"protocol\":\"json\",\"jsonVersion\":\"1.1\"",
        "\"protocol\":\"ec2\"",
        "Protocol",
    ),
];

#[test]
fn operations_that_cannot_be_called(rt: HostRuntime) -> Result<(), Fail> {
    for (part, other, reason) in NOT_ADMITTED {
        let err = format!(in rt.alloc(); "\nOperation not supported: {reason}\n")?;
        let due = refused(255, err.as_str(), None);
        check_changed(&rt, rt.alloc(), &[(part, other)], &due)?;
    }
    Ok(())
}
