// The words of a call.
use run_answers::How;

#[derive(Clone, Copy)]
pub enum Verb {
    Sheets(How),
    Joins,
    Many,
    Help,
    Other,
}

// The verb that a word is.
pub(crate) fn verb_of(word: &[u8]) -> Verb {
    match word {
        b"check" => Verb::Sheets(How::Check),
        b"kept" => Verb::Sheets(How::Kept),
        b"explain" => Verb::Sheets(How::Explain),
        b"joins" => Verb::Joins,
        b"many" => Verb::Many,
        b"help" | b"--help" => Verb::Help,
        _ => Verb::Other,
    }
}
