//! Laws of tokens.
ghost use Rattle.text_fields.specs.Laws.{FieldLaw, TokenLaws};

/// A number is the longest literal without a sign that stands at its place, and the scan from the begin of a text on is that of
/// the whole text. It does nothing when it runs.
pub fn token_laws()
    ensures { TokenLaws }
{}

/// A field has at least one byte, and no blank. It does nothing when it runs.
pub fn field_law()
    ensures { FieldLaw }
{}
