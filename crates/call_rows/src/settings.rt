//! How a row calls: a line of words with blanks between them.
use json_doc::{OutOfMemory, Text};
use sigv4::Signer;
use std::alloc::Global;

/// How a row calls.
#[derive(Clone, Copy)]
pub struct Settings {
    /// The most attempts of a call.
    pub limit: u32,
    /// The quota at the start.
    pub quota: u16,
    /// How many calls are made, one after another.
    pub calls: u32,
    /// Whether requests are signed.
    pub signed: bool,
}

/// The settings in a text such as `limit 3 quota 500 calls 1 signed`.
pub fn settings_of(text: &str) -> Settings {
    let mut settings = Settings {
        limit: 3,
        quota: 500,
        calls: 1,
        signed: false,
    };
    let mut name = "";
    for word in text.split(' ') {
        match name {
            "limit" => settings.limit = word.parse::<u32>().unwrap_or(3),
            "quota" => settings.quota = word.parse::<u16>().unwrap_or(500),
            "calls" => settings.calls = word.parse::<u32>().unwrap_or(1),
            _ => {}
        }
        settings.signed = settings.signed || word == "signed";
        name = word;
    }
    settings
}

/// Who signs, with the keys of AWS's examples.
pub fn signer(alloc: Global) -> Result<Signer, OutOfMemory> {
    Ok(Signer {
        access: Text::from_str(alloc, "AKIDEXAMPLE")?,
        secret: Text::from_str(alloc, "wJalrXUtnFEMI/K7MDENG+bPxRfiCYEXAMPLEKEY")?,
        session: None,
        region: Text::from_str(alloc, "us-east-1")?,
        service: Text::from_str(alloc, "shelf")?,
    })
}
