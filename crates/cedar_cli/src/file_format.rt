//! The formats that files of schemas have.

/// A format of schemas.
#[derive(Clone, Copy, Drop, PartialEq)]
pub(crate) enum FileFormat {
    /// Cedar's JSON format.
    Json,
    /// Cedar's own syntax.
    Text,
}

impl FileFormat {
    /// The format that a word of the program names.
    pub(crate) fn named(word: &str) -> Option<Self> {
        match word {
            "json" => Some(FileFormat::Json),
            "text" => Some(FileFormat::Text),
            _ => None,
        }
    }

    /// The other format.
    pub(crate) fn other(self) -> Self {
        match self {
            FileFormat::Json => FileFormat::Text,
            FileFormat::Text => FileFormat::Json,
        }
    }

    /// The format of a text without a name: JSON where it begins with a brace or a bracket.
    fn of_text(text: &str) -> Self {
        if text.trim_start().starts_with(['{', '[']) {
            FileFormat::Json
        } else {
            FileFormat::Text
        }
    }

    /// The format of a file, by its name; of standard input, by its text.
    pub(crate) fn of(name: &str, text: &str) -> Self {
        if name == "-" {
            FileFormat::of_text(text)
        } else if name.ends_with(".cedarschema") {
            FileFormat::Text
        } else {
            FileFormat::Json
        }
    }
}
